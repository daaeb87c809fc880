// What the contracts of files in memory cannot see: that calls succeed, and the texts of the faults.
use crate::{Failed, Files, LoadFault, MemFiles, Noise, Sample};
use std::alloc::{AllocError, Global};
use std::test::Fail;

const FILES: [(&str, &str); 4] = [
    ("key", "123456"),
    ("empty", ""),
    ("key", "another"),
    ("clé ключ", "unlocked"),
];

const NOISES: [(&str, [Sample; 2]); 3] = [
    ("dice", [Sample::Byte(6), Sample::Byte(1)]),
    ("clé", [Sample::Failed, Sample::Ended]),
    ("dice", [Sample::Byte(3), Sample::Ended]),
];

fn files_of(alloc: Global, fail: &[u64]) -> Result<MemFiles, AllocError> {
    let mut files = Vec::new(alloc);
    for (name, bytes) in FILES {
        let name = String::from_str(alloc, name)?;
        files.push((name, bytes.as_bytes().to_vec(alloc)?))?;
    }
    let mut noises = Vec::new(alloc);
    for (name, events) in NOISES {
        let name = String::from_str(alloc, name)?;
        noises.push((name, events.to_vec(alloc)?))?;
    }
    Ok(MemFiles::new(files, noises, fail.to_vec(alloc)?))
}

#[test]
fn load_answers_the_first_file_of_a_name(rt: HostRuntime) -> Result<(), Fail> {
    let mut files = files_of(rt.alloc(), &[])?;
    let rows = [
        ("key", 7, Ok("123456")),
        ("key", 6, Ok("123456")),
        ("key", 5, Err(LoadFault::TooLong)),
        ("key", 0, Err(LoadFault::TooLong)),
        ("key", 6, Ok("123456")),
        ("empty", 0, Ok("")),
        ("clé ключ", usize::MAX, Ok("unlocked")),
        ("clé", 100, Err(LoadFault::Failed)),
        ("Key", 100, Err(LoadFault::Failed)),
        ("", 100, Err(LoadFault::Failed)),
    ];
    for (name, limit, want) in rows {
        let got = files.load(rt.alloc(), name, limit);
        let got = match &got {
            Ok(bytes) => Ok(bytes.as_slice()),
            Err(fault) => Err(*fault),
        };
        assert_eq!(rt; got, want.map(|text| text.as_bytes()));
    }
    Ok(())
}

#[test]
fn noise_hands_each_list_out_once(rt: HostRuntime) -> Result<(), Fail> {
    let mut files = files_of(rt.alloc(), &[])?;
    let rows = [
        ("dice", Ok([Sample::Byte(6), Sample::Byte(1)])),
        ("dice", Ok([Sample::Byte(3), Sample::Ended])),
        ("dice", Err(Failed)),
        ("clé", Ok([Sample::Failed, Sample::Ended])),
        ("clé", Err(Failed)),
        ("key", Err(Failed)),
    ];
    for (name, want) in rows {
        let got = match files.noise(name) {
            Ok(mut stream) => Ok([stream.next(), stream.next()]),
            Err(fault) => Err(fault),
        };
        assert_eq!(rt; got, want);
    }
    Ok(())
}

// What a file begins with, and what a noise does.
fn first_byte(alloc: Global, files: &mut MemFiles, name: &str) -> Option<u8> {
    match files.load(alloc, name, 100) {
        Ok(bytes) => bytes.first().copied(),
        Err(_) => None,
    }
}

fn first_sample(files: &mut MemFiles, name: &str) -> Option<Sample> {
    match files.noise(name) {
        Ok(mut stream) => Some(stream.next()),
        Err(Failed) => None,
    }
}

#[test]
fn a_listed_call_fails_and_changes_nothing_else(rt: HostRuntime) -> Result<(), Fail> {
    let (one, six, three) = (Some(b'1'), Some(Sample::Byte(6)), Some(Sample::Byte(3)));
    let rows = [
        (0, one, six, three, Some(b'u')),
        (1, None, six, three, Some(b'u')),
        (2, one, None, six, Some(b'u')),
        (3, one, six, None, Some(b'u')),
        (4, one, six, three, None),
        (5, one, six, three, Some(b'u')),
    ];
    for (fail, first, second, third, fourth) in rows {
        let mut files = files_of(rt.alloc(), &[fail])?;
        assert_eq!(rt; first_byte(rt.alloc(), &mut files, "key"), first);
        assert_eq!(rt; first_sample(&mut files, "dice"), second);
        assert_eq!(rt; first_sample(&mut files, "dice"), third);
        assert_eq!(rt; first_byte(rt.alloc(), &mut files, "clé ключ"), fourth);
    }
    Ok(())
}

#[test]
fn faults_show_their_names(rt: HostRuntime) -> Result<(), Fail> {
    let rows = [
        (LoadFault::Failed, "Failed"),
        (LoadFault::TooLong, "TooLong"),
        (LoadFault::NoMemory, "NoMemory"),
    ];
    for (fault, text) in rows {
        assert_eq!(rt; format!(in rt.alloc(); "{fault}")?.as_str(), text);
    }
    Ok(())
}
