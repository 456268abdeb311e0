// The arrays of a stored pass set, from and to the bytes of each number. The functions here serve `load` and `store`, which have tested
// the sizes.
ghost use Rattle.std.specs.Prelude.{◌≡◌, ◌*◌, ◌<◌, ◌≤◌, length, map};
ghost use Rattle.std.specs.List.{list_all};
ghost use Rattle.moment.specs.Sample.{time_in_range};
ghost use Rattle.pass_set.specs.PassSet.{total};
ghost use Rattle.stored.specs.Numbers.{little_endian, time_of, written};

use super::number::LittleEndian;

// The counts added up.
#[tactic(auto, using(crate::proofs::Chunks::counts_total))]
pub fn total_of(counts: &[[u8; 4]]) -> usize
    requires { length counts.now ≤ 16 }
    ensures { result ≡ total (map (little_endian 4) counts.now) }
{
    counts.iter().map(|c| u32::from_le_bytes(*c) as usize).sum()
}

// Whether a time is in range.
fn timely(time: &[u8; 8]) -> bool
    ensures { result ≡ time_in_range (time_of (little_endian 8 time.now)) }
{
    moment::sample::in_range(i64::from_bytes(*time))
}

// Whether each is.
pub fn in_range(times: &[[u8; 8]]) -> bool
    ensures { result ≡ list_all (λ c. time_in_range (time_of (little_endian 8 c))) times.now }
{
    times.iter().all(|t| timely(t))
}

// Each number from its bytes.
pub fn load<T: LittleEndian<W>, const W: usize>(chunks: &[[u8; W]], numbers: &mut [T])
    requires { length chunks.now ≡ length numbers.old }
    ensures { numbers.new ≡ map (λ c. T.of (little_endian W c)) chunks.now }
{
    for (k, bytes) in chunks.iter().enumerate() {
        numbers[k] = T::from_bytes(*bytes);
    }
}

// The bytes of each number, one behind the other.
pub fn store<T: LittleEndian<W>, const W: usize>(numbers: &[T], out: &mut [u8])
    requires { length out.old ≡ W * length numbers.now }
    ensures { out.new ≡ written W T.number numbers.now }
{
    for (k, number) in numbers.iter().enumerate() {
        out[W * k..W * k + W].copy_from_slice(&number.to_bytes());
    }
}
