// Texts that are encrypted and decrypted in the bytes to work in.
ghost use Rattle.std.specs.Prelude.{◌≡◌, ◌≤◌, ◌+◌, ◌++◌, ℕ, List, [], length};
ghost use Rattle.bits_core.specs.declared.limits.TheConstants.{LARGEST_PAYLOAD};
ghost use Rattle.bits_core.specs.ByteList.{zeros};
ghost use Rattle.bits_core.specs.OutboxContents.{holding};
ghost use Rattle.gcm_mode.specs.Filled.{IsFilled};
ghost use Rattle.gcm_mode.specs.Gcm.{IsIv, IsSealable, IsTagLength};
ghost use Rattle.crypto_services.specs.Sealing.{with_tag, opened};

use bits_core::{Enabled, Port, wipe};
use engine_core::Engine;
use gcm_mode::Prepared;
use service_table::Status;

/// Encrypts a text in the front of these bytes, and puts the ciphertext and the leftmost bytes of its tag.
pub(crate) fn seal_in<E: Engine>(
    work: &mut [u8],
    engine: &mut E,
    prepared: &Prepared,
    tag_length: usize,
    iv: &[u8],
    aad: &[u8],
    text: &[u8],
    port: &mut Port<'_, Enabled>,
)
    requires zero { work.old ≡ zeros LARGEST_PAYLOAD }
    requires filled { (key : List ℕ) × IsFilled prepared.now key }
    requires tag { IsTagLength tag_length }
    requires iv { IsIv iv.now }
    requires aad { IsSealable aad.now }
    requires text { IsSealable text.now }
    requires room { length port.old.outbox.now.bytes + (length text.now + tag_length) ≤ port.old.outbox.now.room }
    ensures zero { work.new ≡ zeros LARGEST_PAYLOAD }
    ensures engine { (key : List ℕ) → IsFilled prepared.now key → engine.new ≡ E.calls.seal_after engine.old key iv.now aad.now text.now }
    ensures put { (key : List ℕ) → IsFilled prepared.now key → port.new.outbox.now ≡
        holding (port.old.outbox.now.bytes ++ with_tag tag_length (E.calls.seal engine.old key iv.now aad.now text.now)) port.old.outbox.now.room }
    ensures same { port.new.outbox.ghost_name ≡ port.old.outbox.ghost_name }
{
    let front = &mut work[..text.len()];
    front.copy_from_slice(text);
    seal_front(engine, prepared, tag_length, iv, aad, front, port);
}

// Encrypts the text that stands in these bytes, puts the ciphertext and the leftmost bytes of its tag, and wipes it.
fn seal_front<E: Engine>(
    engine: &mut E,
    prepared: &Prepared,
    tag_length: usize,
    iv: &[u8],
    aad: &[u8],
    text: &mut [u8],
    port: &mut Port<'_, Enabled>,
)
    requires filled { (key : List ℕ) × IsFilled prepared.now key }
    requires tag { IsTagLength tag_length }
    requires iv { IsIv iv.now }
    requires aad { IsSealable aad.now }
    requires text { IsSealable text.old }
    requires room { length port.old.outbox.now.bytes + (length text.old + tag_length) ≤ port.old.outbox.now.room }
    ensures wiped { text.new ≡ zeros (length text.old) }
    ensures engine { (key : List ℕ) → IsFilled prepared.now key → engine.new ≡ E.calls.seal_after engine.old key iv.now aad.now text.old }
    ensures put { (key : List ℕ) → IsFilled prepared.now key → port.new.outbox.now ≡
        holding (port.old.outbox.now.bytes ++ with_tag tag_length (E.calls.seal engine.old key iv.now aad.now text.old)) port.old.outbox.now.room }
    ensures same { port.new.outbox.ghost_name ≡ port.old.outbox.ghost_name }
{
    let mut tag = [0; 16];
    engine.seal(prepared, iv, aad, text, &mut tag);
    put_sealed(port, text, &tag, tag_length);
    wipe(text);
    wipe(&mut tag);
}

// Puts a ciphertext, and behind it the leftmost bytes of its tag.
fn put_sealed(port: &mut Port<'_, Enabled>, ciphertext: &[u8], tag: &[u8; 16], tag_length: usize)
    requires tag { IsTagLength tag_length }
    requires room { length port.old.outbox.now.bytes + (length ciphertext.now + tag_length) ≤ port.old.outbox.now.room }
    ensures put { port.new.outbox.now ≡
        holding (port.old.outbox.now.bytes ++ with_tag tag_length (record { ciphertext = ciphertext.now; tag = tag.now })) port.old.outbox.now.room }
    ensures same { port.new.outbox.ghost_name ≡ port.old.outbox.ghost_name }
{
    port.put(ciphertext);
    port.put(&tag[..tag_length]);
}

/// Decrypts a text in the front of these bytes, and puts it where its tag is right; else AuthFailed, and nothing of it is put.
pub(crate) fn open_in<E: Engine>(
    work: &mut [u8],
    engine: &mut E,
    prepared: &Prepared,
    iv: &[u8],
    aad: &[u8],
    text: &[u8],
    tag: &[u8],
    port: &mut Port<'_, Enabled>,
) -> Status
    requires zero { work.old ≡ zeros LARGEST_PAYLOAD }
    requires filled { (key : List ℕ) × IsFilled prepared.now key }
    requires iv { IsIv iv.now }
    requires aad { IsSealable aad.now }
    requires text { IsSealable text.now }
    requires tag { IsTagLength (length tag.now) }
    requires empty { port.old.outbox.now.bytes ≡ [] }
    requires room { LARGEST_PAYLOAD ≤ port.old.outbox.now.room }
    ensures zero { work.new ≡ zeros LARGEST_PAYLOAD }
    ensures engine { (key : List ℕ) → IsFilled prepared.now key → engine.new ≡ E.calls.open_after engine.old key iv.now aad.now text.now tag.now }
    ensures status { (key : List ℕ) → IsFilled prepared.now key →
        result ≡ (opened (E.calls.open engine.old key iv.now aad.now text.now tag.now)).status }
    ensures put { (key : List ℕ) → IsFilled prepared.now key →
        port.new.outbox.now.bytes ≡ (opened (E.calls.open engine.old key iv.now aad.now text.now tag.now)).payload }
    ensures same { port.new.outbox.ghost_name ≡ port.old.outbox.ghost_name }
    ensures room { port.new.outbox.now.room ≡ port.old.outbox.now.room }
{
    let front = &mut work[..text.len()];
    front.copy_from_slice(text);
    open_front(engine, prepared, iv, aad, front, tag, port)
}

// Decrypts the text that stands in these bytes, puts it where its tag is right, and wipes it.
fn open_front<E: Engine>(
    engine: &mut E,
    prepared: &Prepared,
    iv: &[u8],
    aad: &[u8],
    text: &mut [u8],
    tag: &[u8],
    port: &mut Port<'_, Enabled>,
) -> Status
    requires filled { (key : List ℕ) × IsFilled prepared.now key }
    requires iv { IsIv iv.now }
    requires aad { IsSealable aad.now }
    requires text { IsSealable text.old }
    requires tag { IsTagLength (length tag.now) }
    requires empty { port.old.outbox.now.bytes ≡ [] }
    requires room { LARGEST_PAYLOAD ≤ port.old.outbox.now.room }
    ensures wiped { text.new ≡ zeros (length text.old) }
    ensures engine { (key : List ℕ) → IsFilled prepared.now key → engine.new ≡ E.calls.open_after engine.old key iv.now aad.now text.old tag.now }
    ensures status { (key : List ℕ) → IsFilled prepared.now key →
        result ≡ (opened (E.calls.open engine.old key iv.now aad.now text.old tag.now)).status }
    ensures put { (key : List ℕ) → IsFilled prepared.now key →
        port.new.outbox.now.bytes ≡ (opened (E.calls.open engine.old key iv.now aad.now text.old tag.now)).payload }
    ensures same { port.new.outbox.ghost_name ≡ port.old.outbox.ghost_name }
    ensures room { port.new.outbox.now.room ≡ port.old.outbox.now.room }
{
    let authentic = engine.open(prepared, iv, aad, text, tag);
    let status = put_opened(port, authentic, text);
    wipe(text);
    status
}

// Puts a text that was opened, where it is authentic.
fn put_opened(port: &mut Port<'_, Enabled>, authentic: bool, text: &[u8]) -> Status
    requires empty { port.old.outbox.now.bytes ≡ [] }
    requires room { length text.now ≤ port.old.outbox.now.room }
    ensures status { result ≡ (opened (record { authentic = authentic; text = text.now })).status }
    ensures put { port.new.outbox.now.bytes ≡ (opened (record { authentic = authentic; text = text.now })).payload }
    ensures same { port.new.outbox.ghost_name ≡ port.old.outbox.ghost_name }
    ensures room { port.new.outbox.now.room ≡ port.old.outbox.now.room }
{
    if !authentic {
        return Status::AuthFailed;
    }
    port.put(text);
    Status::Ok
}
