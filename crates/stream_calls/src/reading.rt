// The next bytes of a source.
ghost use Rattle.std.specs.Prelude.{◌≡◌, ◌≤◌, ◌<◌, IfOk, OnOk, OnErr, length, take};
ghost use Rattle.outside.specs.Contents.{Consumes, IsAtEnd};
ghost use Rattle.outside.specs.Faults.{FaultCounted};

use outside::{Failed, Source};

/// Reads into the front of the chunk, at most so many bytes: how many were read, and 0 only where the source is at its end. The chunk isn't
/// empty, and at least one byte may be read. A fault comes only where the source's count rose, and takes nothing.
pub fn read_some<S: Source>(source: &mut S, chunk: &mut [u8], most: u64) -> Result<usize, Failed>
    requires chunk { 0 < length chunk.old }
    requires most { 0 < most }
    ensures size { IfOk result (λ n. (n ≤ length chunk.new) × (n ≤ most)) }
    ensures room { length chunk.new ≡ length chunk.old }
    ensures taken { IfOk result (λ n. Consumes (S.left source.old) (take n chunk.new) (S.left source.new)) }
    ensures end { IfOk result (λ n. n ≡ 0 → IsAtEnd (S.left source.old)) }
    ensures kept { OnErr result (S.left source.new ≡ S.left source.old) }
    ensures fault_counted { OnErr result (FaultCounted (S.faults source.old) (S.faults source.new)) }
    ensures faults_unchanged { OnOk result (S.faults source.new ≡ S.faults source.old) }
{
    let room = (chunk.len() as u64).min(most) as usize;
    source.read(&mut chunk[..room])
}
