// The span of a queue, for those who write one.
ghost use Rattle.std.specs.Prelude.{◌≡◌, min};
ghost use Rattle.queue.specs.Held.{most};

// The span of a queue over so many places.
pub fn span_of(places: usize) -> u16
    ensures { result ≡ min places most }
{
    u16::try_from(places).unwrap_or(u16::MAX)
}
