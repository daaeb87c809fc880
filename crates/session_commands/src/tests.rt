// Sessions, against rows that a script computed.
use crate::Session;
use crate::session_rows::ROWS;
use module_frames::Command;
use std::test::Fail;

// The FNV-1a check sum goes on with these bytes.
fn add(sum: u64, bytes: &[u8]) -> u64 {
    let mut sum = sum;
    for byte in bytes {
        let next = (sum ^ u64::from(*byte)).wrapping_mul(0x100_0000_01b3);
        sum = next;
    }
    sum
}

// The check sum goes on with a command.
fn add_command(sum: u64, command: &Command) -> u64 {
    let length = (command.body().len() as u64).to_be_bytes();
    let sum = add(sum, &[command.service()]);
    let sum = add(sum, &length[4..]);
    add(sum, command.body())
}

// The check sum of all commands of a session.
fn sum_of(seed: u64, count: u32, command: &mut Command) -> u64 {
    let mut session = Session::new(seed, count);
    let mut sum = 0xcbf2_9ce4_8422_2325;
    for _turn in 0..300 {
        if session.next(command) {
            let next = add_command(sum, command);
            sum = next;
        }
    }
    sum
}

#[test]
fn sessions_are_those_of_the_rows(rt: HostRuntime) -> Result<(), Fail> {
    let mut command = Command::new(rt.alloc())?;
    for (seed, count, _services, _lengths, sum) in ROWS {
        assert_eq!(rt; sum_of(seed, count, &mut command), sum);
        assert_eq!(rt; command.service(), 0);
        assert_eq!(rt; command.body().len(), 0);
    }
    Ok(())
}

#[test]
fn the_first_drawn_commands_are_those_of_the_rows(rt: HostRuntime) -> Result<(), Fail> {
    let mut command = Command::new(rt.alloc())?;
    for (seed, count, services, lengths, _sum) in ROWS {
        let mut session = Session::new(seed, count);
        for _turn in 0..11 {
            assert!(rt; session.next(&mut command));
        }
        for place in 0..8 {
            assert!(rt; session.next(&mut command));
            assert_eq!(rt; command.service(), services[place]);
            assert_eq!(rt; command.body().len(), lengths[place]);
        }
    }
    Ok(())
}

#[test]
fn a_session_ends_behind_its_commands(rt: HostRuntime) -> Result<(), Fail> {
    let mut command = Command::new(rt.alloc())?;
    for count in [0u32, 1, 5] {
        let mut session = Session::new(7, count);
        for _turn in 0..11 + count {
            assert!(rt; session.next(&mut command));
        }
        assert!(rt; !session.next(&mut command));
        assert!(rt; !session.next(&mut command));
        assert_eq!(rt; command.service(), 0);
    }
    Ok(())
}
