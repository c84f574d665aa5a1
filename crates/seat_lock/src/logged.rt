//! What lies under a lock, and what is done to it in a turn.
ghost use Rattle.std.specs.Prelude.{◌≡◌, List};
ghost use Rattle.seat_lock.specs.History.{LogEntry, GrowsByAtMostOne};

/// A value with a log, which turns make longer, and a head, which no turn changes.
pub trait Logged {
    /// Plain data, of which no value need be made.
    type Head;

    ghost log: { Self → List LogEntry };

    ghost head: { Self → Self.Head };
}

/// What is done to the value in one turn.
pub trait Job<T: Logged> {
    /// What the turn answers.
    type Out;

    /// What the job needs to know of the head.
    ghost fits: { Self → T.Head → Type 0 };

    /// What the job does: a relation of the job, the value before, the value after and the answer.
    ghost does: { Self → T → T → Self.Out → Type 0 };

    /// Does the job. The value keeps its head, and its log stays or gains one entry at its end.
    fn act(self, value: &mut T) -> Self::Out
        requires { fits self (T.head value.old) }
        ensures does { does self value.old value.new result }
        ensures head { T.head value.new ≡ T.head value.old }
        ensures log { GrowsByAtMostOne (T.log value.old) (T.log value.new) };
}
