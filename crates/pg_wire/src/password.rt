//! The answer to a server that asks for an MD5 password.

ghost use Rattle.std.specs.Prelude.{◌≡◌, ◌++◌, length};
ghost use Rattle.pg_wire.specs.Password.{hex_digest, md5_text};

use md5::{Digest, Md5};

// Writes the digest of `first` with `second` after it, in lower-case hexadecimal digits.
fn write_digest(first: &[u8], second: &[u8], digits: &mut [u8])
    requires { length digits.old ≡ 32 }
    ensures { digits.new ≡ hex_digest (first.now ++ second.now) }
{
    let mut hasher = Md5::new();
    hasher.update(first);
    hasher.update(second);
    // The room is twice as long as a digest, so this doesn't fail.
    let _ = hex::encode_to_slice(hasher.finalize(), digits);
}

/// The text of the [`password_message`](crate::frontend::password_message) that answers AuthenticationMD5Password with this salt
/// ("Message Flow", "Start-up"). In SQL it is `concat('md5', md5(concat(md5(concat(password, user)), salt)))`, where `md5` gives
/// lower-case hexadecimal digits. It takes no memory.
#[tactic(auto, unfolding(crate::specs::Password::md5_text))]
pub fn md5_answer(user: &[u8], password: &[u8], salt: [u8; 4]) -> [u8; 35]
    ensures { result ≡ md5_text user.now password.now salt }
{
    let mut inner = [0; 32];
    write_digest(password, user, &mut inner);
    let mut answer = [0; 35];
    answer[..3].copy_from_slice(b"md5");
    write_digest(&inner, &salt, &mut answer[3..]);
    answer
}
