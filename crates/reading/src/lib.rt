// What a line of hexadecimal asks.
#![tactic(auto)]

ghost use Rattle.std.specs.Prelude.{◌≡◌};
ghost use Rattle.digits.specs.Digits.{bytes_of};
ghost use Rattle.reading.specs.Kinds.{well_formed, admit_frame, run_frame, list_frame, read};
ghost use Rattle.reading.specs.Asking.{asked_by, column as column_of};

// What a line asks. The records of a set to admit stay in the line.
#[derive(Clone, Copy)]
pub enum Asked {
    Admit { m: u32, n: usize },
    Run { slots: u32 },
    List,
}

// "at most 518 digits"
const DIGITS_MOST: usize = 518;

// Is a line some frame's digits: not empty, not too long, two a byte?
#[tactic(auto, unfolding(crate::specs::Kinds::well_formed))]
fn is_well_formed(line: &[u8]) -> bool
    ensures { result ≡ well_formed line.now }
{
    let size = line.len();
    1 <= size && size <= DIGITS_MOST && size % 2 == 0 && digits::all_digits(line)
}

#[tactic(auto, unfolding(crate::specs::Asking::asked_by, crate::specs::Kinds::admit_frame), using(digits::proofs::Bytes::length_bytes, rule::proofs::Places::length_each))]
fn asked_admit(line: &[u8]) -> Option<Asked>
    ensures { result ≡ asked_by (admit_frame (bytes_of line.now)) }
{
    let m = digits::byte_at(line, 1);
    let n = digits::byte_at(line, 2) as usize;
    (line.len() / 2 == 3 + 4 * n).then_some(Asked::Admit { m, n })
}

#[tactic(auto, unfolding(crate::specs::Asking::asked_by, crate::specs::Kinds::run_frame), using(digits::proofs::Bytes::length_bytes))]
fn asked_run(line: &[u8]) -> Option<Asked>
    ensures { result ≡ asked_by (run_frame (bytes_of line.now)) }
{
    let slots = digits::pair_at(line, 1);
    (line.len() / 2 == 3).then_some(Asked::Run { slots })
}

#[tactic(auto, unfolding(crate::specs::Asking::asked_by, crate::specs::Kinds::list_frame), using(digits::proofs::Bytes::length_bytes))]
fn asked_list(line: &[u8]) -> Option<Asked>
    ensures { result ≡ asked_by (list_frame (bytes_of line.now)) }
{
    (line.len() / 2 == 1).then_some(Asked::List)
}

// What a line asks; None where it is malformed.
#[tactic(auto, unfolding(crate::specs::Asking::asked_by, crate::specs::Kinds::read, crate::specs::Kinds::frame_of))]
pub fn what_is_asked(line: &[u8]) -> Option<Asked>
    ensures { result ≡ asked_by (read line.now) }
{
    if !is_well_formed(line) {
        return None;
    }
    match digits::byte_at(line, 0) {
        1 => asked_admit(line),
        2 => asked_run(line),
        3 => asked_list(line),
        _ => None,
    }
}

// The requirements of a set to admit stand from byte 3 on, its periods from byte 5 on, each four bytes after the one before.
// There is no heap: they fill the front of 64 places, and how many are asked is in `Asked::Admit`.
pub fn column(line: &[u8], from: u8) -> [u32; 64]
    ensures { result ≡ column_of line.now from }
{
    std::array::from_fn(|i| digits::pair_at(line, from as usize + 4 * i))
}
