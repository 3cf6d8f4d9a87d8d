// What programs in other languages call, by the C ABI: the benchmark does.
#![tactic(auto)]

ghost use Rattle.std.specs.Prelude.{◌≡◌, ◌==◌, length, if◌then◌else◌};
ghost use Rattle.digest.specs.Sha256.{sha256_of};

/// The digest of bytes into out, which has to have 32 bytes: else nothing is written, and the answer is false.
// The C interface: a slice and a bool stand for an array and a Result.
#[unsafe(no_mangle)]
pub extern "C" fn digest_sha256(bytes: &[u8], out: &mut [u8]) -> bool
    ensures fits { result ≡ (length out.old == 32) }
    ensures written { out.new ≡ (if result then sha256_of bytes.now else out.old) }
{
    if out.len() != 32 {
        return false;
    }
    out.copy_from_slice(&digest::sha256(bytes));
    true
}
