//! Laws of streams. Each is a function that does nothing, whose contract is the law.
ghost use Rattle.owner_streams.specs.Laws.{StreamIsExact, StreamIsOne, DeliveryStays, StreamGrows};

/// A stream lists exactly what is delivered without a gap: each of its places is delivered with that command,
/// and the place at its end is not.
pub fn stream_is_exact()
    ensures { StreamIsExact }
{}

/// No other list is the stream.
pub fn stream_is_one()
    ensures { StreamIsOne }
{}

/// A command that is delivered stays so, whatever is taken later.
pub fn delivery_stays()
    ensures { DeliveryStays }
{}

/// A stream only grows at its end.
pub fn stream_grows()
    ensures { StreamGrows }
{}
