// The names by which lines call services and numbers.
ghost use Rattle.std.specs.Prelude.{◌≡◌, ◌≢◌, ℕ, None, Some, MatchOption, IfSome, IfNone, slice_get};
ghost use Rattle.service_table.specs.declared.service.Service.{Service};
ghost use Rattle.service_table.specs.Numbers.{service_number};
ghost use Rattle.operator_text.specs.LineForms.{line_name};
ghost use Rattle.operator_text.specs.Names.{names, first_number, IsNameOf};

use crate::forms::{WordType, line_name};
use service_table::{Service, service_of};

fn role_name(place: u8) -> Option<&'static [u8]>
    ensures { MatchOption result (slice_get (names WordType.Role) place ≡ None) (λ name. slice_get (names WordType.Role) place ≡ Some name.now) }
{
    match place {
        0 => Some(b"none"),
        1 => Some(b"officer"),
        2 => Some(b"user"),
        _ => None,
    }
}

fn kind_name(place: u8) -> Option<&'static [u8]>
    ensures { MatchOption result (slice_get (names WordType.Kind) place ≡ None) (λ name. slice_get (names WordType.Kind) place ≡ Some name.now) }
{
    match place {
        0 => Some(b"aes"),
        1 => Some(b"kek"),
        2 => Some(b"mac"),
        3 => Some(b"kdf"),
        _ => None,
    }
}

fn domain_name(place: u8) -> Option<&'static [u8]>
    ensures { MatchOption result (slice_get (names WordType.Domain) place ≡ None) (λ name. slice_get (names WordType.Domain) place ≡ Some name.now) }
{
    match place {
        0 => Some(b"other"),
        1 => Some(b"approved"),
        _ => None,
    }
}

fn export_name(place: u8) -> Option<&'static [u8]>
    ensures { MatchOption result (slice_get (names WordType.Export) place ≡ None) (λ name. slice_get (names WordType.Export) place ≡ Some name.now) }
{
    match place {
        0 => Some(b"keep"),
        1 => Some(b"export"),
        _ => None,
    }
}

fn alg_name(place: u8) -> Option<&'static [u8]>
    ensures { MatchOption result (slice_get (names WordType.Alg) place ≡ None) (λ name. slice_get (names WordType.Alg) place ≡ Some name.now) }
{
    match place {
        0 => Some(b"sha256"),
        1 => Some(b"sha384"),
        2 => Some(b"sha512"),
        _ => None,
    }
}

// The name that stands at the place in the list of the type's names.
fn name_at(word_type: WordType, place: u8) -> Option<&'static [u8]>
    ensures { MatchOption result (slice_get (names word_type) place ≡ None) (λ name. slice_get (names word_type) place ≡ Some name.now) }
{
    match word_type {
        WordType::Role => role_name(place),
        WordType::Kind => kind_name(place),
        WordType::Domain => domain_name(place),
        WordType::Export => export_name(place),
        WordType::Alg => alg_name(place),
        WordType::Byte | WordType::Quad | WordType::Bytes | WordType::ShortBytes => None,
    }
}

// The number of the type's first name.
fn first_number(word_type: WordType) -> u8
    ensures { result ≡ first_number word_type }
{
    match word_type {
        WordType::Kind | WordType::Alg => 1,
        WordType::Byte
        | WordType::Quad
        | WordType::Role
        | WordType::Domain
        | WordType::Export
        | WordType::Bytes
        | WordType::ShortBytes => 0,
    }
}

// No type has more names.
const MOST_NAMES: u8 = 4;

/// The number whose name the word is, where it is a name of the type.
pub fn number_named(word_type: WordType, word: &[u8]) -> Option<u8>
    ensures some { IfSome result (λ number. IsNameOf word_type word.now number) }
    ensures none { IfNone result ((number : ℕ) → IsNameOf word_type word.now number → ⊥) }
{
    for place in 0..MOST_NAMES {
        if let Some(name) = name_at(word_type, place) {
            if name == word {
                return Some(first_number(word_type) + place);
            }
        }
    }
    None
}

// The number of the last service.
const LAST_SERVICE: u8 = 0x1d;

// The service with this number, where the word names it.
fn service_if_named(number: u8, word: &[u8]) -> Option<Service>
    ensures some { IfSome result (λ service. line_name service ≡ word.now) }
    ensures none { IfNone result ((service : Service) → service_number service ≡ number → line_name service ≢ word.now) }
{
    match service_of(number) {
        Some(service) => {
            if line_name(service) == word {
                Some(service)
            } else {
                None
            }
        }
        None => None,
    }
}

/// The service that the word names.
pub fn service_named(word: &[u8]) -> Option<Service>
    ensures some { IfSome result (λ service. line_name service ≡ word.now) }
    ensures none { IfNone result ((service : Service) → line_name service ≢ word.now) }
{
    for number in 0..=LAST_SERVICE {
        if let Some(service) = service_if_named(number, word) {
            return Some(service);
        }
    }
    None
}
