// The two keys of a backup, in one sequence of bytes.
ghost use Rattle.std.specs.Prelude.{◌≡◌, length};
ghost use Rattle.backup_runs.specs.declared.limits.TheConstants.{KEYS_LENGTH};
ghost use Rattle.backup_runs.specs.TwoKeys.{kek_of, mac_of};

/// The key-encryption key and the MAC key.
pub fn two_keys(keys: &[u8]) -> (&[u8; 32], &[u8; 32])
    requires { length keys.now ≡ KEYS_LENGTH }
    ensures kek { result.0.now ≡ kek_of keys.now }
    ensures mac { result.1.now ≡ mac_of keys.now }
{
    match keys.split_first_chunk::<32>() {
        Some((kek, rest)) => match rest.split_first_chunk::<32>() {
            Some((mac, _)) => (kek, mac),
            None => unreachable!(),
        },
        None => unreachable!(),
    }
}
