//! The tests and their numbers.
ghost use Rattle.std.specs.Prelude.{◌≡◌, IfSome, IfNone};
ghost use Rattle.self_tests.specs.Tests.{IsNoTest, number_of, test_numbered};

/// A known-answer test (ISO/IEC 19790:2012, 7.10.3.2). Which there are, and their numbers, is this project's own table.
#[derive(Clone, Copy, Debug, PartialEq, Eq)]
pub enum Test {
    /// A digest by SHA-256.
    Sha256,
    /// A digest by SHA-384.
    Sha384,
    /// A digest by SHA-512.
    Sha512,
    /// A MAC by HMAC-SHA-256.
    HmacSha256,
    /// A MAC by HMAC-SHA-384.
    HmacSha384,
    /// A MAC by HMAC-SHA-512.
    HmacSha512,
    /// A text sealed by GCM.
    Seal,
    /// A text opened by GCM, and one refused.
    Open,
    /// A key wrapped by KW.
    Wrap,
    /// A key unwrapped by KW.
    Unwrap,
    /// A key wrapped by KWP.
    WrapPad,
    /// A key unwrapped by KWP.
    UnwrapPad,
    /// A key derived.
    Derive,
    /// Bytes of a generator that was instantiated and seeded anew.
    Generator,
}

impl Test {
    /// The test with this number; None where no test has it, exactly outside 1 to 14.
    pub fn new(number: u8) -> Option<Test>
        ensures value { result ≡ test_numbered number }
        ensures numbered { IfSome result (λ test. number_of test ≡ number) }
        ensures none { IfNone result (IsNoTest number) }
    {
        match number {
            1 => Some(Test::Sha256),
            2 => Some(Test::Sha384),
            3 => Some(Test::Sha512),
            4 => Some(Test::HmacSha256),
            5 => Some(Test::HmacSha384),
            6 => Some(Test::HmacSha512),
            7 => Some(Test::Seal),
            8 => Some(Test::Open),
            9 => Some(Test::Wrap),
            10 => Some(Test::Unwrap),
            11 => Some(Test::WrapPad),
            12 => Some(Test::UnwrapPad),
            13 => Some(Test::Derive),
            14 => Some(Test::Generator),
            _ => None,
        }
    }

    /// The number of the test, 1 to 14.
    pub fn number(self) -> u8
        ensures { result ≡ number_of self }
    {
        match self {
            Test::Sha256 => 1,
            Test::Sha384 => 2,
            Test::Sha512 => 3,
            Test::HmacSha256 => 4,
            Test::HmacSha384 => 5,
            Test::HmacSha512 => 6,
            Test::Seal => 7,
            Test::Open => 8,
            Test::Wrap => 9,
            Test::Unwrap => 10,
            Test::WrapPad => 11,
            Test::UnwrapPad => 12,
            Test::Derive => 13,
            Test::Generator => 14,
        }
    }
}
