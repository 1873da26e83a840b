ghost use Rattle.std.specs.Prelude.{◌≡◌, ℕ, List, length};

/// What a lock keeps: a value with a history, which events make longer.
pub trait Machine {
    /// What the history consists of.
    type Event;

    /// What the history begins from.
    type Base;

    // The events, the oldest first.
    ghost history: { Self → List Self.Event };

    // The number of whoever made the event.
    ghost actor: { Self.Event → ℕ };

    ghost base: { Self → Self.Base };

    /// How many events the history has.
    fn count(&self) -> u64
        ensures { result ≡ length (history self.now) };
}
