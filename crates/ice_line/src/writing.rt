//! Bytes to a sink.
ghost use Rattle.std.specs.Prelude.{◌≤◌};
ghost use Rattle.ice_line.specs.Lines.{Writes};

use ice_base::Sink;

/// Writes bytes, if there are any, and tells whether all were written.
pub fn write_some<K: Sink>(bytes: &[u8], sink: &mut K) -> bool
    ensures writes { Writes result (K.written sink.old) (K.written sink.new) (K.faults sink.old) (K.faults sink.new) bytes.now }
    ensures faults { K.faults sink.old ≤ K.faults sink.new }
{
    bytes.is_empty() || sink.put(bytes).is_ok()
}
