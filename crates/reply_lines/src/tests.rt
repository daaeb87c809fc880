// Reply lines, against lines that were written by hand.
ghost use Rattle.std.specs.Prelude.{◌≡◌, ◌≤◌, IfOk, length};

use crate::write_line;
use bits_core::{Enabled, LARGEST_PAYLOAD, Outbox, Port};
use module_frames::Reply;
use service_table::{State, Status};
use std::alloc::{AllocError, Global};
use std::test::Fail;

// Room for the longest line.
const ROOM: usize = 131_456;

#[test]
fn a_cleared_reply_is_written(rt: HostRuntime) -> Result<(), Fail> {
    let reply = Reply::new(rt.alloc())?;
    let mut line = Outbox::new(rt.alloc(), ROOM)?;
    write_line(&reply, &mut line);
    assert_eq!(rt;
        line.bytes(),
        b"Ok Off 0 0000 000000000000000000000000 -\n".as_slice()
    );
    Ok(())
}

#[test]
fn all_words_are_written(rt: HostRuntime) -> Result<(), Fail> {
    let mut reply = Reply::new(rt.alloc())?;
    reply.sequence = Some(7);
    reply.status = Status::UnknownService;
    reply.state = State::SelfTest;
    reply.approved = true;
    reply.code = 0x0a0e;
    reply.block = [
        0x53, 0x59, 0x4d, 0x4d, 0x4f, 0x44, 0x20, 0x30, 0x31, 0xab, 0xcd, 0xef,
    ];
    {
        let mut port = Port::<Enabled>::over(&mut reply.payload);
        port.put(&[0x00, 0x9f, 0xfa]);
    }
    let mut line = Outbox::new(rt.alloc(), ROOM)?;
    write_line(&reply, &mut line);
    assert_eq!(rt;
        line.bytes(),
        b"UnknownService SelfTest 1 0a0e 53594d4d4f44203031abcdef 009ffa\n".as_slice()
    );
    Ok(())
}

// Whether the line of a reply with this status begins so.
fn begins(status: Status, start: &[u8], reply: &mut Reply, line: &mut Outbox) -> bool
    requires { 131456 ≤ line.old.room }
    ensures { line.new.room ≡ line.old.room }
{
    reply.status = status;
    write_line(reply, line);
    line.bytes().starts_with(start)
}

#[test]
fn the_names_of_statuses_are_written(rt: HostRuntime) -> Result<(), Fail> {
    let mut reply = Reply::new(rt.alloc())?;
    let mut line = Outbox::new(rt.alloc(), ROOM)?;
    assert!(rt;
        begins(
            Status::AuthFailed,
            b"AuthFailed Off ",
            &mut reply,
            &mut line
        )
    );
    assert!(rt;
        begins(
            Status::NotExportable,
            b"NotExportable Off ",
            &mut reply,
            &mut line
        )
    );
    assert!(rt;
        begins(
            Status::OutOfOrder,
            b"OutOfOrder Off ",
            &mut reply,
            &mut line
        )
    );
    Ok(())
}

// So many equal bytes.
fn equal_bytes(alloc: Global, byte: u8, count: usize) -> Result<Vec<u8>, AllocError>
    ensures { IfOk result (λ bytes. length bytes.items ≡ count) }
{
    vec![in alloc; byte; count]
}

#[test]
fn the_longest_payload_is_written(rt: HostRuntime) -> Result<(), Fail> {
    let payload = equal_bytes(rt.alloc(), 0xee, LARGEST_PAYLOAD)?;
    let mut reply = Reply::new(rt.alloc())?;
    {
        let mut port = Port::<Enabled>::over(&mut reply.payload);
        port.put(&payload);
    }
    let mut line = Outbox::new(rt.alloc(), ROOM)?;
    write_line(&reply, &mut line);
    assert_eq!(rt; line.bytes().len(), 131_368);
    assert!(rt; line.bytes().ends_with(b"eeee\n"));
    Ok(())
}
