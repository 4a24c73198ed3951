// The bytes of a field of a file, whatever its width and the order of its bytes. Inner: offered to no user.
ghost use Rattle.std.specs.Prelude.{◌≡◌, ◌+◌, ◌≤◌, length, take, drop};

pub fn bytes_at<const N: usize>(input: &[u8], at: usize) -> [u8; N]
    requires { at + N ≤ length input.now }
    ensures { result ≡ take N (drop at input.now) }
{
    input[at..at + N].try_into().unwrap()
}
