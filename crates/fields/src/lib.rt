// Register fields: SIZE, AP and the value of RASR for an enabled entry. From mpu_switch.rs.
#![tactic(auto)]

ghost use Rattle.std.specs.Prelude.{◌≡◌, true, ◌≤◌};
ghost use Rattle.laws.specs.Power.{is_pow2};
ghost use Rattle.region.specs.Sound.{min_region_size};
ghost use Rattle.fields.specs.Fields.{size_field, ap_field, size_answer, rasr_answer, field_of};

use refusal::Refusal;

const AP_READ_WRITE: u32 = 3;

const AP_READ_ONLY: u32 = 6;

const AP_UNIT: u32 = 16777216;

// What RASR encodes of an enabled entry.
#[derive(Clone, Copy)]
pub struct Attributes {
    pub size: u32,
    pub writable: bool,
}

// The SIZE field of a region's size.
#[tactic(auto, unfolding(crate::specs::Fields::size_answer, crate::specs::Fields::sizing))]
pub fn size_field(size: u32) -> Result<u32, Refusal>
    ensures { field_of result ≡ size_answer size }
{
    if !region::is_power_of_two(size) {
        return Err(Refusal::NoPowerOfTwo);
    }
    if size < region::MIN_REGION_SIZE {
        return Err(Refusal::TooSmall);
    }
    Ok(size_of(size))
}

// The AP field: read and write for all, or read for all.
pub fn ap_field(writable: bool) -> u32
    ensures { result ≡ ap_field writable }
{
    if writable {
        AP_READ_WRITE
    } else {
        AP_READ_ONLY
    }
}

// The value of RASR that grants an enabled entry.
#[tactic(auto, using(crate::proofs::SizeLaws::size_most, crate::proofs::RasrLaws::ap_range), unfolding(crate::specs::Fields::rasr_answer, crate::specs::Fields::size_answer, crate::specs::Fields::sizing, crate::specs::Fields::rasr))]
pub fn rasr_for(a: Attributes) -> Result<u32, Refusal>
    ensures { field_of result ≡ rasr_answer a }
{
    let size = size_field(a.size)?;
    Ok(1 + 2 * size + AP_UNIT * ap_field(a.writable))
}

// The value beside an answer's number: 0 where it is refused.
pub fn value_of(answer: Result<u32, Refusal>) -> u32
    ensures { result ≡ (field_of answer).value }
{
    answer.unwrap_or(0)
}

// SIZE by comparison with one power after the other.
// Stays: document 01 gives this place its form (trailing zeros) with a later request.
#[tactic(auto, using(laws::proofs::PowerLaws::pow2_exactly, laws::proofs::PowerLaws::next_power, laws::proofs::PowerLaws::pow_below, laws::proofs::PowerLaws::pow_double, crate::proofs::ReachLaws::reached))]
fn size_of(size: u32) -> u32
    requires { (is_pow2 size ≡ true) × (min_region_size ≤ size) }
    ensures { result ≡ size_field size }
{
    let mut field = 4;
    let mut power = 32;
    while power < size {
        power *= 2;
        field += 1;
    }
    field
}
