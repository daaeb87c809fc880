// A run of the program over files, noise and streams in memory, and what its replies should be.
ghost use Rattle.std.specs.Prelude.{◌≤◌};

use engine_core::Shipped;
use module_top::run;
use outside::{MemFiles, MemSink, MemSource, Sample};
use std::alloc::Global;
use std::test::Fail;

// The words that serve the files of `files_of`.
pub(crate) const SERVE: [&str; 4] = ["serve", "image", "digest", "noise"];

// The image 616263, and the digits of its HMAC-SHA-256 under the key of the bytes 00 to 1f, by Python's hmac.
pub(crate) const IMAGE: &[u8] = b"abc";

pub(crate) const DIGEST: &[u8] =
    b"f0133729c4163dede81e21cd47839256da58171238c8a0d874397c73b14e1e47";

// A pass of the three steps of TestStep takes 1,408 samples: 1,024 that are dropped, 256 of entropy and 128 of a nonce.
pub(crate) const ONE_PASS: usize = 1_408;

pub(crate) const TWO_PASSES: usize = 2_816;

// Samples of noise: the first byte, what each next one has more, modulo 256, and how many they are.
pub(crate) type Part = (u8, u8, usize);

pub(crate) fn add_parts(noise: &mut Vec<Sample>, parts: &[Part]) -> Result<(), Fail> {
    for (first, more, count) in parts {
        let mut byte = *first;
        for _ in 0..*count {
            noise.push(Sample::Byte(byte))?;
            byte = byte.wrapping_add(*more);
        }
    }
    Ok(())
}

// So many samples: the bytes 00, 01, .., ff, and again from 00.
pub(crate) fn counting(alloc: Global, samples: usize) -> Result<Vec<Sample>, Fail> {
    let mut noise = Vec::new(alloc);
    add_parts(&mut noise, &[(0, 1, samples)])?;
    Ok(noise)
}

// An image, the file of its digest, and noise, under the names of `SERVE`.
pub(crate) fn files_of(
    alloc: Global,
    image: Vec<u8>,
    digest: &[u8],
    noise: Vec<Sample>,
) -> Result<MemFiles, Fail> {
    let mut files = Vec::new(alloc);
    files.push((String::from_str(alloc, "image")?, image))?;
    files.push((String::from_str(alloc, "digest")?, digest.to_vec(alloc)?))?;
    let mut noises = Vec::new(alloc);
    noises.push((String::from_str(alloc, "noise")?, noise))?;
    Ok(MemFiles::new(files, noises, Vec::new(alloc)))
}

// Runs the words over these files and streams.
pub(crate) fn run_over(
    alloc: Global,
    words: &[&str],
    mut files: MemFiles,
    mut commands: MemSource,
    mut replies: MemSink,
) -> Result<(u8, MemSink), Fail> {
    let mut all = Vec::new(alloc);
    for word in words {
        all.push(String::from_str(alloc, word)?)?;
    }
    let status = run(
        alloc,
        &all,
        &mut files,
        &mut commands,
        &mut replies,
        Shipped::new(),
    );
    Ok((status, replies))
}

// Serves these bytes, which come so many at a time, over files.
pub(crate) fn served(
    alloc: Global,
    files: MemFiles,
    bytes: &[u8],
    step: usize,
) -> Result<(u8, MemSink), Fail>
    requires { 1 ≤ step }
{
    let commands = MemSource::new(bytes.to_vec(alloc)?, step, Vec::new(alloc));
    let replies = MemSink::new(alloc, 4_000, 24, Vec::new(alloc))?;
    run_over(alloc, &SERVE, files, commands, replies)
}

// The same over the image 616263 and this noise.
pub(crate) fn outcome(
    alloc: Global,
    noise: Vec<Sample>,
    bytes: &[u8],
    step: usize,
) -> Result<(u8, MemSink), Fail>
    requires { 1 ≤ step }
{
    let files = files_of(alloc, IMAGE.to_vec(alloc)?, DIGEST, noise)?;
    served(alloc, files, bytes, step)
}

pub(crate) const NO_BLOCK: [u8; 12] = [0; 12];

fn reply_to(command: &[u8], status: u8, state: u8, block: &[u8; 12]) -> [u8; 24] {
    let mut reply = [0; 24];
    reply[0] = 0x5c;
    reply[1] = 0x01;
    reply[2] = match command {
        [_, _, service, ..] => *service,
        _ => 0,
    };
    reply[3] = status;
    reply[4] = state;
    reply[8..20].copy_from_slice(block);
    reply
}

// A command, and of its reply the status, the state and the status block.
pub(crate) type Shown = (&'static [u8], u8, u8, [u8; 12]);

// A stream, and the replies to it.
#[derive(Drop)]
pub(crate) struct Dialogue {
    pub(crate) stream: Vec<u8>,
    pub(crate) want: Vec<u8>,
}

impl Dialogue {
    pub(crate) fn new(alloc: Global) -> Dialogue {
        Dialogue {
            stream: Vec::new(alloc),
            want: Vec::new(alloc),
        }
    }

    // Commands, and of their replies the status and the state.
    pub(crate) fn add(&mut self, rows: &[(&[u8], u8, u8)]) -> Result<(), Fail> {
        for (command, status, state) in rows {
            self.stream.extend_from_slice(command)?;
            self.want
                .extend_from_slice(&reply_to(command, *status, *state, &NO_BLOCK))?;
        }
        Ok(())
    }

    // Rows whose replies carry this error code.
    pub(crate) fn show(&mut self, rows: &[Shown], code: (u8, u8)) -> Result<(), Fail> {
        let (high, low) = code;
        for (command, status, state, block) in rows {
            let mut reply = reply_to(command, *status, *state, block);
            reply[6] = high;
            reply[7] = low;
            self.stream.extend_from_slice(command)?;
            self.want.extend_from_slice(&reply)?;
        }
        Ok(())
    }

    // A command with a body of fewer than 256 bytes.
    pub(crate) fn ask(
        &mut self,
        service: u8,
        body: &[u8],
        status: u8,
        state: u8,
    ) -> Result<(), Fail> {
        let length = u8::try_from(body.len()).ok().ok_or("a short body")?;
        let header = [0xc5, 0x01, service, 0, 0, 0, 0, length];
        self.stream.extend_from_slice(&header)?;
        self.stream.extend_from_slice(body)?;
        self.want
            .extend_from_slice(&reply_to(&header, status, state, &NO_BLOCK))?;
        Ok(())
    }
}

// Commands without a body, or with a body of one byte or four.
pub(crate) const POWER_ON: &[u8] = &[0xc5, 0x01, 0x01, 0, 0, 0, 0, 4, 0, 0, 0, 0];

pub(crate) const TEST_STEP: &[u8] = &[0xc5, 0x01, 0x02, 0, 0, 0, 0, 0];

pub(crate) const REQUEST_TESTS: &[u8] = &[0xc5, 0x01, 0x03, 0, 0, 0, 0, 0];

pub(crate) const SHOW_STATUS: &[u8] = &[0xc5, 0x01, 0x04, 0, 0, 0, 0, 0];

pub(crate) const OFFICER: &[u8] = &[0xc5, 0x01, 0x06, 0, 0, 0, 0, 1, 1];

pub(crate) const RESET: &[u8] = &[0xc5, 0x01, 0x07, 0, 0, 0, 0, 0];

// The tests up to the last step, from Init.
pub(crate) const TWO_STEPS: [(&[u8], u8, u8); 3] = [
    (REQUEST_TESTS, 0, 2),
    (TEST_STEP, 0, 2),
    (TEST_STEP, 0, 2),
];

// The last step, where it passes.
pub(crate) const APPROVED: [(&[u8], u8, u8); 1] = [(TEST_STEP, 0, 3)];
