// Numbers as bytes, high byte first, and addresses, which are sent so.
#![tactic(auto)]

ghost use Rattle.std.specs.Prelude.{◌≡◌, min, take};
ghost use Rattle.paper.specs.Address.{high_first, address_bytes};
ghost use Rattle.address.specs.Bytes.{high_first_bytes};

// The number that bytes are, high byte first. Of more than eight the first eight are read.
fn high_first(bytes: &[u8]) -> usize
    ensures { result ≡ high_first (take 8 bytes.now) }
{
    let mut number = 0;
    let front = &bytes[..bytes.len().min(8)];
    for &byte in front {
        number = number * 256 + usize::from(byte);
    }
    number
}

// The eight bytes of a number, high byte first.
pub fn high_first_bytes(number: usize) -> [u8; 8]
    ensures { result ≡ high_first_bytes 8 number }
{
    number.to_be_bytes()
}

// The number that the count bytes after a transaction's first byte are, high byte first. It takes the whole input, as
// `address_bytes` does. Of more than eight the first eight are read; where fewer were sent, those are.
pub fn address_sent(input: &[u8], count: usize) -> usize
    ensures { result ≡ high_first (address_bytes (min count 8) input.now) }
{
    let n = input.len();
    if n == 0 {
        return 0;
    }
    let end = 1 + count.min(8).min(n - 1);
    high_first(&input[1..end])
}
