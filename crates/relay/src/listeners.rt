ghost use Rattle.std.specs.Prelude.{[], ◌∷◌};
ghost use Rattle.relay.specs.Heard.{Ear, Grows, hears};

use crate::news::News;

/// Who is told what each call on a count came to, in their order.
pub trait Listener {
    // What was heard so far, and whether something was lost, as for want of memory.
    ghost ear: { Self → Ear };

    /// Hears what one call more came to. A listener that loses it says so from then on.
    fn hear(&mut self, news: News<'_>)
        ensures { Grows (ear self.old) (ear self.new) (hears news.entry ∷ []) };
}
