#![tactic(auto)]

// Tests of compiled code, by examples. Tables: those that are routines, and each refusal with the
// ways into it. Counts at work on both boards: by react, call by call, and which statements a react
// steps. Records: from board to board, and each refusal with the ways into it. And relays.
#[cfg(test)]
mod building;
#[cfg(test)]
mod handing_over;
#[cfg(test)]
mod loading;
#[cfg(test)]
mod reacting;
#[cfg(test)]
mod relaying;
#[cfg(test)]
mod step_order;
#[cfg(test)]
mod stepping;
