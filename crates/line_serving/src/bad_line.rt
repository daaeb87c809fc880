// The line that tells of a bad line.
ghost use Rattle.std.specs.Prelude.{◌≡◌, ◌≤◌, []};
ghost use Rattle.bits_core.specs.OutboxContents.{holding};
ghost use Rattle.line_serving.specs.BadLines.{bad_line_text};

use bits_core::{Enabled, Outbox, Port};

// Puts the words, the number and an LF.
fn put_bad_line(port: &mut Port<'_, Enabled>, number: u64)
    requires empty { port.old.outbox.now.bytes ≡ [] }
    requires room { 30 ≤ port.old.outbox.now.room }
    ensures same { port.new.outbox.ghost_name ≡ port.old.outbox.ghost_name }
    ensures put { port.new.outbox.now ≡ holding (bad_line_text number) port.old.outbox.now.room }
{
    let mut digits = itoa::Buffer::new();
    port.put(b"bad line ");
    port.put(digits.format(number).as_bytes());
    port.put(b"\n");
}

/// Writes the line that tells the number of a bad line, in place of what the outbox held, which has room for 30 bytes.
pub fn write_bad_line(number: u64, into: &mut Outbox)
    requires { 30 ≤ into.old.room }
    ensures { into.new ≡ holding (bad_line_text number) into.old.room }
{
    let mut port = Port::<Enabled>::over(into);
    put_bad_line(&mut port, number);
}
