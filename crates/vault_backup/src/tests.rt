//! The backups are those of Python's hmac and cryptography (checks/backup_rows.py).
ghost use Rattle.std.specs.Prelude.{◌≡◌, ◌≤◌, ◌<◌, length};
ghost use Rattle.vault_backup.specs.declared.limits.TheConstants.{BACKUP_MOST};

use crate::{BACKUP_MOST, RestoreFault, backup, restore};
use bits_core::{Domain, Header, Kind, Outbox, SlotId, fits};
use ssp_slots::{Shown, Vault};
use std::alloc::{AllocError, Global};
use std::process::Abort;
use std::test::Fail;

const KEK: [u8; 32] = [
    0, 1, 2, 3, 4, 5, 6, 7, 8, 9, 10, 11, 12, 13, 14, 15, 16, 17, 18, 19, 20, 21, 22, 23, 24, 25,
    26, 27, 28, 29, 30, 31,
];

const MAC: [u8; 32] = [
    32, 33, 34, 35, 36, 37, 38, 39, 40, 41, 42, 43, 44, 45, 46, 47, 48, 49, 50, 51, 52, 53, 54, 55,
    56, 57, 58, 59, 60, 61, 62, 63,
];

const NONE_KEPT: &str =
    "534d423100b39fd995184ea2d4ab3a4c31e973dc9c60dad1e0320e434747eef0a284b2bbe4";

const ONE_KEPT: &str =
    "534d4231010203000000000704a996a5123356c664b0ec7649efbd396903169b9e21c7463c011335f44fb889fdd99d9371c63a92e02e9fc533289526dd";

const TWO_KEPT: &str =
    "534d4231020203000000000704a996a5123356c664b0ec7649efbd3969090401ffffffff146022d0b127971b547f1604938f10e0cf42ab2ff9316abb34a08f0ba06ad2709d8a630ef0f4f4bbc2d18af78652ee89813a3af9fe0b5f91313de991955bd59d32";

static NO_FORM: [(&str, &str); 25] = [
    (
        "other magic bytes",
        "534d4232010203000000000704a996a5123356c664b0ec7649efbd39696f40b14dfed145a123d358e87647555ff7801b5a19cf8b5a72d88700d62618c0",
    ),
    (
        "one record more than there are",
        "534d4231020203000000000704a996a5123356c664b0ec7649efbd3969158315d09efe09f72ae4f3ef2b2359150a679e18c8da18e796f88f577a4e12cb",
    ),
    (
        "one record fewer than there are",
        "534d4231010203000000000704a996a5123356c664b0ec7649efbd3969090401ffffffff146022d0b127971b547f1604938f10e0cf42ab2ff9316abb34a08f0ba06ad2709d64aafa37182c326bf29065662fb82f517cbf87f9b7563b24a9790aefa783495a",
    ),
    (
        "seventeen records",
        "534d4231110203000000000704a996a5123356c664b0ec7649efbd396971db23d237286b5876c78f55c49f7d115ac8a8f9dacd8cb40c37004205ba1c14",
    ),
    (
        "no record where one is",
        "534d4231000203000000000704a996a5123356c664b0ec7649efbd39695d9571ee18cae8272c3c0d48500abb3bb4be9f312f2e24e22ed851bceff49f32",
    ),
    (
        "a slot twice",
        "534d4231020203000000000704a996a5123356c664b0ec7649efbd39690203000000000704a996a5123356c664b0ec7649efbd39696e56fbdc7ba71f9bf82dde636878a838547d996e5d4599ccd0777315d97bb0ab",
    ),
    (
        "falling slots",
        "534d423102090401ffffffff146022d0b127971b547f1604938f10e0cf42ab2ff9316abb34a08f0ba06ad2709d0203000000000704a996a5123356c664b0ec7649efbd39693a84d6c293d5068f5de63c23fd7f7886e6c7d39c8987ead0c6e0259286b2780f",
    ),
    (
        "slot 16",
        "534d4231011003000000000704a996a5123356c664b0ec7649efbd39691381f3ffd3b79404873b5b007c49804ffb3274b1bd43a50bdfdefb8f222a7cf9",
    ),
    (
        "kind 0",
        "534d4231010200000000000704a996a5123356c664b0ec7649efbd39697227b987bbd50842fa1d38256acaf6a36af61674e69b6d40b14205d5d0780652",
    ),
    (
        "kind 5",
        "534d4231010205000000000704a996a5123356c664b0ec7649efbd39695d491341dcd310c351aa6803dd64696eb31e14f34157fe1f2998f8ad5ba93f06",
    ),
    (
        "domain 2",
        "534d4231010203020000000704a996a5123356c664b0ec7649efbd3969933cdc3b7f172df727d1f84cf2d4fac47499f066cc02b74b097af6cc9198dc39",
    ),
    (
        "no use",
        "534d4231010203000000000004a996a5123356c664b0ec7649efbd39699070496b38359ea0e794a8414a75993f81c0f97c1f56d0c1d4c616fcedfd9d4f",
    ),
    (
        "length 0",
        "534d4231010203000000000700a996a5123356c664b0ec7649efbd396940fb7ab067b129571708032bcfdf2b084966fc313de257cf3f4b2ca4c1ff5158",
    ),
    (
        "length 0, and nothing but a semiblock",
        "534d4231010203000000000700000000000000000067c58f226f02d66e7d7fe93aede16f520ee421e35579dfcfdc5005295303db64",
    ),
    (
        "length 65",
        "534d423101020300000000074100000000000000000000000000000000000000000000000000000000000000000000000000000000000000000000000000000000000000000000000000000000000000000000000000000000000000001f1318ea9c8c89871912aa7a10f1e81da23aa0a4689b6c364abe0216a33b1af9",
    ),
    (
        "an AES key of 20 bytes",
        "534d42310102010100000007143dda8be00a1bf32a7c508a5e26716f00d106a958614c3e5e89818a35a29fe8f78f8293262b9224873d9e18e078e11cdfaf6c98b265ea3c9d8f482e861854f780",
    ),
    (
        "a key-encryption key of 8 bytes",
        "534d42310102020000000007084219a93be7758cebdcea448db0972405332e344bc72a8aa921536edcaefeeecd1a635668946e720aa4d17ee02cf3fbab",
    ),
    (
        "an approved MAC key of 13 bytes",
        "534d423101020301000000070dec78645a20bd3e6667c372231aef493f34e5ed01c5fcf97e3e6cf49640fcc1980172f36ed9af709acdeb264caed2e065ef853d599408460a",
    ),
    (
        "an approved derivation key of 13 bytes",
        "534d423101020401000000070dec78645a20bd3e6667c372231aef493f34e5ed01c5fcf97e562e3ca9c2a2f7409931a51996482c87c5a12e25d3e70809268f86ad9a670022",
    ),
    (
        "a wrapped part of a semiblock more",
        "534d4231010203000000000704000000000000000000000000000000000000000000000000b9b947a1d6487fea8f070fb521be500f7e78ac879a33b65420100172531148f1",
    ),
    (
        "a wrapped part of a semiblock less",
        "534d423101020300000000070900000000000000000000000000000000d38e6b27f142b22559b6ba7ab4b98df81b94d3d621517b96123ff665595955dc",
    ),
    (
        "a wrapped part of a byte less",
        "534d423101020300000000070400000000000000000000000000000004a5ab488ea208dbae133083a7c0b7db62ff6ae8122e567a6a36d23b0567ce96",
    ),
    (
        "a byte behind the records",
        "534d4231010203000000000704a996a5123356c664b0ec7649efbd396900e42beb3381b2ded4e936b9fef6202731e25b0bc99fd7f69ac0cdeb38799133d0",
    ),
    (
        "a record that is cut",
        "534d4231020203000000000704a996a5123356c664b0ec7649efbd396902030000000007def49aea312446e8067ed86dd46103d7a705c666ff1508dd2800c34e36fc5994",
    ),
    (
        "a tag alone",
        "f49240b78aa90e53f46106c3481e377e19696e777328b1cd6ec6061a0bd868a9",
    ),
];

static NO_WRAPPING: [(&str, u8, &str); 8] = [
    (
        "no wrapping of a plaintext",
        2,
        "534d423101020300000000070400000000000000000000000000000000fc5b0e480ca55bfa08e2506864957a3829802d44e56195dc1df4daa14006ce50",
    ),
    (
        "a bit turned",
        2,
        "534d4231010203000000000704a896a5123356c664b0ec7649efbd39696e22b32623521a185e62bbe90b26de7be9e7c552dbd2773e346e17a6dfe66d99",
    ),
    (
        "a parameter of 5 bytes where 4 are told",
        2,
        "534d42310102030000000007044cab860bdb06222c1f83adc41604e8faacc9a57fbe501a0ca6b3252335b2727514b1ce5107a8accd00836b2b95a7134e",
    ),
    (
        "a parameter of 8 bytes where 4 are told",
        2,
        "534d42310102030000000007044219a93be7758cebdcea448db0972405f2f47ae9b21fdfc4d2cb5f76b36adeaa3629111888e01d480904cc56b39602a4",
    ),
    (
        "padding that isn't zero",
        2,
        "534d4231010203000000000704e90db146cf1ce6953d1d28ff47a97211853f7deb8221ec1837f3dd7bbff3e71bd97d142071b4ec0e3012e335ebe1422e",
    ),
    (
        "another check value",
        2,
        "534d423101020300000000070408448b9d08dba7b4e9a73bd16ba91b8b1db0679e64ff9d94f7f736ce61015adcd16ec32c8310134c8b3d9b93e5cfa683",
    ),
    (
        "in the second record",
        9,
        "534d4231020203000000000704a996a5123356c664b0ec7649efbd396909040100000001140000000000000000000000000000000000000000000000000000000000000000ea8d316028ea11ad96a36284a4a26a54af1d88a0e62f107e84acf4cd2dab66de",
    ),
    (
        "in both records",
        2,
        "534d42310202030000000007040000000000000000000000000000000009040100000001140000000000000000000000000000000000000000000000000000000000000000148ffa8a2e1897c2315aaf657392b7ef87bac0107cf8a0eeac75699c0ed62456",
    ),
];

static OTHER_TAGS: [(&str, &str); 3] = [
    (
        "all but the head",
        "534d4231020203000000000704a996a5123356c664b0ec7649efbd3969090401ffffffff146022d0b127971b547f1604938f10e0cf42ab2ff9316abb34a08f0ba06ad2709dfbf2dd5d5ab0a8c1e3a40e65de577e6c2a8bbf95d600b9560f7112011c78c166",
    ),
    (
        "the head alone",
        "534d4231020203000000000704a996a5123356c664b0ec7649efbd3969090401ffffffff146022d0b127971b547f1604938f10e0cf42ab2ff9316abb34a08f0ba06ad2709dd756a9fd97078bd61a3beb0802f113151c06ed10bbfa5ba7b98e1e49f698756c",
    ),
    (
        "all of it under the other key",
        "534d4231020203000000000704a996a5123356c664b0ec7649efbd3969090401ffffffff146022d0b127971b547f1604938f10e0cf42ab2ff9316abb34a08f0ba06ad2709d9939099a3df6b02a7e41112cc617dc80a98790dca9368e1bed80cf9403c2c2bd",
    ),
];

static ALL_THAT_FIT: [(usize, &str); 16] = [
    (
        613,
        "ee47fea468febbfeeae0865db9a7ee358148dfb7ba5e232797b0aa5f80f15ede",
    ),
    (
        549,
        "8b06596c3a1cdeb34efa118fd047a803432b659fcf59070bbd08bb5f6208dda5",
    ),
    (
        805,
        "a9e9f257f93006735abacb709c00b4aa5cadad70e5162ea7c06f54547dcbb5a5",
    ),
    (
        1061,
        "38983b0b7b3c47b1a6bc1e504e0dcc46ad00de17f8195f52d2427e497549c4a2",
    ),
    (
        1101,
        "6d25546e24022e2702a4a6560ab5f54cf084ddbc29345d85ecda9540862954ef",
    ),
    (
        757,
        "1dbfa2c97d31135ef8eccc34a27b847d926182da58edca3d0db9d2cc4f8386a1",
    ),
    (
        1013,
        "690d1bc10ba98d534b69b5949bb8324e727dc3f400c3afda09e07fa2544bc306",
    ),
    (
        1205,
        "5c5af2803eb86e0d1723e0c079efeeb43a14992867e87a1b717c9b3fbb335a5e",
    ),
    (
        501,
        "02111876319d508a01ade7edca10aebde8b74904b8ca3e5995d96d05690d69ee",
    ),
    (
        757,
        "46e45e5ca83fbba4454486f42f9784b99586a1065b865e6320cd5bbda95b1039",
    ),
    (
        1013,
        "cb6840ae7a8bb1e9c08b1e7ddfcd8d4da183959e46a7e12f62aba0b90a7a75f4",
    ),
    (
        1213,
        "ef28afbbc7beb77f611737af24046271ca4b0f3fef827c4b6bd3d155af356457",
    ),
    (
        709,
        "123ef1e7e37c5944b859a1893d80ec20719fc7953ce899a88d38c5444eb4538b",
    ),
    (
        965,
        "9d6c1001ab01083646e6218b2f078c2340c17cc2af95b64ec88ae0ed5dee6d0f",
    ),
    (
        1221,
        "12a1f1504432fe166f81f077b8d3f06f6c30bdd9ff90e2f78a4f21f0ec89dbde",
    ),
    (
        197,
        "93f83f609a43f258fddb7857d8f70ba2e89a5a0cbeca783b35b0f196d08eb298",
    ),
];

const LONGEST: (usize, &str) = (
    1317,
    "74df18cb35b84fe1310f58f785618edf7779d67d9a7ed6e7bb55f2aa69a4791d",
);

fn no_form() -> &'static [(&'static str, &'static str)] {
    &NO_FORM
}

fn no_wrapping() -> &'static [(&'static str, u8, &'static str)] {
    &NO_WRAPPING
}

fn other_tags() -> &'static [(&'static str, &'static str)] {
    &OTHER_TAGS
}

fn all_that_fit() -> &'static [(usize, &'static str)] {
    &ALL_THAT_FIT
}

fn digit(rt: &impl Abort, code: u8) -> u8
    ensures { result < 16 }
{
    match code {
        b'0'..=b'9' => code - b'0',
        b'a'..=b'f' => code - b'a' + 10,
        _ => {
            assert!(rt; false, "no digit");
            0
        }
    }
}

fn bytes_of(rt: &impl Abort, alloc: Global, row: &str) -> Result<Vec<u8>, AllocError> {
    let digits = row.as_bytes();
    let mut bytes = Vec::new(alloc);
    for i in 0usize..digits.len() / 2 {
        bytes.push(16 * digit(rt, digits[2 * i]) + digit(rt, digits[2 * i + 1]))?;
    }
    Ok(bytes)
}

fn slot_at(rt: &impl Abort, number: u8) -> SlotId
    ensures { result ≡ number }
{
    assert!(rt; number < 16);
    SlotId::new(number).unwrap()
}

// Fills an empty slot.
fn put(rt: &impl Abort, vault: &mut Vault, number: u8, header: &Header, bytes: &[u8]) {
    let slot = slot_at(rt, number);
    assert!(rt; fits(header.kind, header.domain, bytes.len()));
    assert!(rt; header.uses >= 1);
    assert_eq!(rt; vault.put(slot, header, bytes), Ok(()));
}

// What the tests put: it may leave.
fn header(kind: Kind, domain: Domain, uses: u32) -> Header {
    Header {
        kind,
        domain,
        export: true,
        uses,
    }
}

fn jefe() -> Header {
    header(Kind::Mac, Domain::Other, 7)
}

// Whether a slot holds this, and may leave.
fn holds(rt: &impl Abort, vault: &Vault, number: u8, want: &Header, bytes: &[u8]) {
    let slot = slot_at(rt, number);
    let shown = Shown {
        full: true,
        header: Some(*want),
        length: bytes.len(),
    };
    assert_eq!(rt; vault.show(slot), shown);
    assert_eq!(rt; vault.bytes(slot), bytes);
}

// How many slots are full.
fn full_slots(vault: &Vault) -> usize {
    let mut count = 0;
    for number in 0u8..16 {
        if vault.show(SlotId::new(number).unwrap()).full {
            count += 1;
        }
    }
    count
}

// Whether the bytes are refused so, by a vault whose slots are empty, and fill none.
fn refuses(rt: &impl Abort, vault: &mut Vault, bytes: &[u8], name: &str, fault: RestoreFault) {
    let answer = restore(vault, &KEK, &MAC, bytes);
    assert!(rt; answer == Err(fault), "{name}: {answer:?}");
    assert_eq!(rt; full_slots(vault), 0);
}

// Whether this is the backup of the vault.
fn is_backup(rt: &impl Abort, alloc: Global, vault: &Vault, row: &str) -> Result<(), AllocError> {
    let want = bytes_of(rt, alloc, row)?;
    let mut out = Outbox::new(alloc, BACKUP_MOST)?;
    backup(vault, &KEK, &MAC, &mut out);
    assert_eq!(rt; out.bytes(), want.as_slice());
    Ok(())
}

#[test]
fn no_slot_is_kept(rt: HostRuntime) -> Result<(), Fail> {
    let mut vault = Vault::new(rt.alloc())?;
    is_backup(&rt, rt.alloc(), &vault, NONE_KEPT)?;
    let bytes = bytes_of(&rt, rt.alloc(), NONE_KEPT)?;
    assert_eq!(rt; bytes.len(), 37);
    assert_eq!(rt; restore(&mut vault, &KEK, &MAC, &bytes), Ok(0));
    assert_eq!(rt; full_slots(&vault), 0);
    Ok(())
}

#[test]
fn one_slot_is_kept_and_restored(rt: HostRuntime) -> Result<(), Fail> {
    let mut vault = Vault::new(rt.alloc())?;
    put(&rt, &mut vault, 2, &jefe(), b"Jefe");
    is_backup(&rt, rt.alloc(), &vault, ONE_KEPT)?;
    let bytes = bytes_of(&rt, rt.alloc(), ONE_KEPT)?;
    assert_eq!(rt; bytes.len(), 61);
    vault.zeroise_all();
    assert_eq!(rt; restore(&mut vault, &KEK, &MAC, &bytes), Ok(1));
    holds(&rt, &vault, 2, &jefe(), b"Jefe");
    assert_eq!(rt; full_slots(&vault), 1);
    Ok(())
}

// A parameter of this length: its bytes rise by 3, from a number that kind, domain and length give.
fn parameter(kind: Kind, domain: Domain, size: usize) -> [u8; 64]
    requires { size ≤ 64 }
{
    let first = 64 * usize::from(kind.number()) + 32 * usize::from(domain.number()) + size;
    let mut bytes = [0; 64];
    for place in 0usize..64 {
        bytes[place] = ((first + 3 * place) % 256) as u8;
    }
    bytes
}

#[test]
fn some_slots_are_not_kept(rt: HostRuntime) -> Result<(), Fail> {
    let mut vault = Vault::new(rt.alloc())?;
    let last = header(Kind::Kdf, Domain::Approved, u32::MAX);
    let twenty = parameter(Kind::Kdf, Domain::Approved, 20);
    let text = &twenty[..20];
    put(&rt, &mut vault, 9, &last, text);
    let stays = Header {
        export: false,
        ..jefe()
    };
    put(&rt, &mut vault, 1, &stays, b"stays");
    let once = header(Kind::Mac, Domain::Other, 1);
    put(&rt, &mut vault, 3, &once, b"spent");
    assert_eq!(rt; vault.source(slot_at(&rt, 3), Kind::Mac, false), Ok(()));
    put(&rt, &mut vault, 2, &jefe(), b"Jefe");
    is_backup(&rt, rt.alloc(), &vault, TWO_KEPT)?;
    let bytes = bytes_of(&rt, rt.alloc(), TWO_KEPT)?;
    vault.zeroise(slot_at(&rt, 2));
    vault.zeroise(slot_at(&rt, 9));
    vault.link(slot_at(&rt, 1), slot_at(&rt, 9));
    assert_eq!(rt; restore(&mut vault, &KEK, &MAC, &bytes), Ok(2));
    holds(&rt, &vault, 2, &jefe(), b"Jefe");
    holds(&rt, &vault, 9, &last, text);
    assert_eq!(rt; vault.row(slot_at(&rt, 9)), 2);
    assert_eq!(rt; full_slots(&vault), 4);
    Ok(())
}

#[test]
fn a_record_for_a_full_slot_fills_none(rt: HostRuntime) -> Result<(), Fail> {
    let bytes = bytes_of(&rt, rt.alloc(), TWO_KEPT)?;
    let mut vault = Vault::new(rt.alloc())?;
    let last = slot_at(&rt, 9);
    put(&rt, &mut vault, 9, &jefe(), b"here");
    let behind = Err(RestoreFault::Occupied(last));
    assert_eq!(rt; restore(&mut vault, &KEK, &MAC, &bytes), behind);
    assert_eq!(rt; full_slots(&vault), 1);
    put(&rt, &mut vault, 2, &jefe(), b"too");
    let first = Err(RestoreFault::Occupied(slot_at(&rt, 2)));
    assert_eq!(rt; restore(&mut vault, &KEK, &MAC, &bytes), first);
    holds(&rt, &vault, 9, &jefe(), b"here");
    // A wrapped part is looked at before a slot is.
    let other = Err(RestoreFault::Wrapped(slot_at(&rt, 2)));
    assert_eq!(rt; restore(&mut vault, &MAC, &MAC, &bytes), other);
    let key = Err(RestoreFault::Tag);
    assert_eq!(rt; restore(&mut vault, &KEK, &KEK, &bytes), key);
    holds(&rt, &vault, 2, &jefe(), b"too");
    Ok(())
}

#[test]
fn a_right_tag_over_no_form_is_refused(rt: HostRuntime) -> Result<(), Fail> {
    let mut vault = Vault::new(rt.alloc())?;
    for (name, row) in no_form() {
        let bytes = bytes_of(&rt, rt.alloc(), row)?;
        refuses(&rt, &mut vault, &bytes, name, RestoreFault::Form);
    }
    Ok(())
}

#[test]
fn a_wrapped_part_of_no_parameter_is_refused(rt: HostRuntime) -> Result<(), Fail> {
    let mut vault = Vault::new(rt.alloc())?;
    for (name, slot, row) in no_wrapping() {
        let bytes = bytes_of(&rt, rt.alloc(), row)?;
        let fault = RestoreFault::Wrapped(slot_at(&rt, *slot));
        refuses(&rt, &mut vault, &bytes, name, fault);
    }
    for (name, row) in other_tags() {
        let bytes = bytes_of(&rt, rt.alloc(), row)?;
        refuses(&rt, &mut vault, &bytes, name, RestoreFault::Tag);
    }
    Ok(())
}

// Whether each bit of a byte that is turned is seen.
fn turn_bits(rt: &impl Abort, vault: &mut Vault, bytes: &mut [u8], place: usize)
    requires { place < length bytes.old }
{
    for bit in 0u8..8 {
        bytes[place] ^= 1 << bit;
        match restore(vault, &KEK, &MAC, bytes) {
            Err(RestoreFault::Form) => {}
            Err(RestoreFault::Tag) => {}
            _ => assert!(rt; false, "bit {bit} of byte {place}"),
        }
        bytes[place] ^= 1 << bit;
    }
}

// Whether each byte that is turned in a bit is seen, and each beginning of the bytes.
fn spoil(rt: &impl Abort, vault: &mut Vault, bytes: &mut [u8]) {
    for place in 0..bytes.len() {
        turn_bits(rt, vault, bytes, place);
        refuses(rt, vault, &bytes[..place], "cut", RestoreFault::Form);
    }
}

#[test]
fn each_bit_that_is_turned_is_seen(rt: HostRuntime) -> Result<(), Fail> {
    let mut vault = Vault::new(rt.alloc())?;
    let mut bytes = bytes_of(&rt, rt.alloc(), ONE_KEPT)?;
    spoil(&rt, &mut vault, &mut bytes);
    Ok(())
}

// The kinds, domains and lengths that fit.
fn combinations(alloc: Global) -> Result<Vec<(Kind, Domain, usize)>, AllocError> {
    let mut all = Vec::new(alloc);
    for kind in [Kind::Aes, Kind::Kek, Kind::Mac, Kind::Kdf] {
        add_lengths(&mut all, kind, Domain::Other)?;
        add_lengths(&mut all, kind, Domain::Approved)?;
    }
    Ok(all)
}

// The lengths that fit a kind and a domain.
fn add_lengths(
    all: &mut Vec<(Kind, Domain, usize)>,
    kind: Kind,
    domain: Domain,
) -> Result<(), AllocError> {
    for size in 1usize..65 {
        if fits(kind, domain, size) {
            all.push((kind, domain, size))?;
        }
    }
    Ok(())
}

// How many uses the slot with a number is given.
fn uses_of(number: u8) -> u32 {
    if number % 2 == 1 { 1 } else { u32::MAX }
}

// Fills the slots from 0 on, so that each may leave.
fn fill(rt: &impl Abort, vault: &mut Vault, group: &[(Kind, Domain, usize)]) {
    for place in 0..group.len() {
        assert!(rt; place < 16);
        let (kind, domain, size) = group[place];
        assert!(rt; size <= 64);
        let number = place as u8;
        let told = header(kind, domain, uses_of(number));
        put(
            rt,
            vault,
            number,
            &told,
            &parameter(kind, domain, size)[..size],
        );
    }
}

// Whether the slots from 0 on hold what was filled.
fn are_filled(rt: &impl Abort, vault: &Vault, group: &[(Kind, Domain, usize)]) {
    for place in 0..group.len() {
        assert!(rt; place < 16);
        let (kind, domain, size) = group[place];
        assert!(rt; size <= 64);
        let number = place as u8;
        let told = header(kind, domain, uses_of(number));
        holds(
            rt,
            vault,
            number,
            &told,
            &parameter(kind, domain, size)[..size],
        );
    }
    assert_eq!(rt; full_slots(vault), group.len());
}

// Whether the group's backup has this length and tag, and gives the group back.
fn is_saved(
    rt: &impl Abort,
    alloc: Global,
    vault: &mut Vault,
    group: &[(Kind, Domain, usize)],
    want: &(usize, &'static str),
) -> Result<(), AllocError> {
    let tag = bytes_of(rt, alloc, want.1)?;
    let mut out = Outbox::new(alloc, BACKUP_MOST)?;
    fill(rt, vault, group);
    backup(vault, &KEK, &MAC, &mut out);
    let bytes = out.bytes();
    assert_eq!(rt; bytes.len(), want.0);
    assert!(rt; bytes.ends_with(&tag));
    vault.zeroise_all();
    assert_eq!(rt; restore(vault, &KEK, &MAC, bytes), Ok(group.len()));
    are_filled(rt, vault, group);
    vault.zeroise_all();
    Ok(())
}

#[test]
fn each_kind_domain_and_length_is_saved(rt: HostRuntime) -> Result<(), Fail> {
    let mut vault = Vault::new(rt.alloc())?;
    let all = combinations(rt.alloc())?;
    assert_eq!(rt; all.len(), 242);
    for (group, want) in all.chunks(16).zip(all_that_fit()) {
        is_saved(&rt, rt.alloc(), &mut vault, group, want)?;
    }
    Ok(())
}

#[test]
fn sixteen_slots_of_64_bytes_are_saved(rt: HostRuntime) -> Result<(), Fail> {
    let mut vault = Vault::new(rt.alloc())?;
    let group = [(Kind::Mac, Domain::Approved, 64); 16];
    is_saved(&rt, rt.alloc(), &mut vault, &group, &LONGEST)?;
    Ok(())
}
