// Fields of a record, little-endian: read from bytes that the caller knows to be there, and the bytes to write.
#![tactic(auto)]

ghost use Rattle.std.specs.Prelude.{◌≡◌, ◌+◌, ◌≤◌, length};
ghost use Rattle.record_fields.specs.Field.{unsigned_at, signed_at};
ghost use Rattle.record_fields.specs.Bytes.{little_endian, bits_of};

// The unsigned number of two bytes from place k on.
#[tactic(auto, unfolding(crate::specs::Field::unsigned_at))]
pub fn u16_at(s: &[u8], k: usize) -> u16
    requires { k + 2 ≤ length s.now }
    ensures { result ≡ unsigned_at 2 s.now k }
{
    u16::from_le_bytes([s[k], s[k + 1]])
}

// The unsigned number of four bytes.
#[tactic(auto, unfolding(crate::specs::Field::unsigned_at))]
pub fn u32_at(s: &[u8], k: usize) -> u32
    requires { k + 4 ≤ length s.now }
    ensures { result ≡ unsigned_at 4 s.now k }
{
    u32::from_le_bytes([s[k], s[k + 1], s[k + 2], s[k + 3]])
}

// The signed number of two bytes.
#[tactic(auto, unfolding(crate::specs::Field::signed_at, crate::specs::Field::twos))]
pub fn i16_at(s: &[u8], k: usize) -> i16
    requires { k + 2 ≤ length s.now }
    ensures { result ≡ signed_at 2 s.now k }
{
    u16_at(s, k).cast_signed()
}

// The signed number of four bytes.
#[tactic(auto, unfolding(crate::specs::Field::signed_at, crate::specs::Field::twos))]
pub fn i32_at(s: &[u8], k: usize) -> i32
    requires { k + 4 ≤ length s.now }
    ensures { result ≡ signed_at 4 s.now k }
{
    u32_at(s, k).cast_signed()
}

// The four bytes of an unsigned number.
#[tactic(auto, unfolding(crate::specs::Bytes::little_endian))]
pub fn u32_bytes(x: u32) -> [u8; 4]
    ensures { result ≡ little_endian 4 x }
{
    x.to_le_bytes()
}

// The four bytes of a signed number.
#[tactic(auto, unfolding(crate::specs::Bytes::bits_of))]
pub fn i32_bytes(x: i32) -> [u8; 4]
    ensures { result ≡ little_endian 4 (bits_of 32 x) }
{
    u32_bytes(x.cast_unsigned())
}
