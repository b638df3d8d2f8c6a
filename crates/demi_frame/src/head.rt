// What stands at the front of a text of requests.
ghost use Rattle.std.specs.Prelude.{◌≡◌, List, ℕ, ◌≤◌, ◌<◌, ◌^◌, length, false, drop};
ghost use Rattle.demi_spec.specs.Input.{front, request_of, code_of_head, head_kind, head_key, head_value};
ghost use Rattle.demi_frame.specs.Head.{Shows, request_at};

#[derive(Clone, Copy)]
pub enum Kind {
    Put,
    Get,
    End,
}

#[derive(Clone, Copy)]
pub enum Found {
    More,
    Refused(u8),
    Whole(Kind, usize, usize),
}

// How many bytes a value has at most.
const MAX_VALUE_BYTES: usize = 65_536;

// Why a head is refused.
#[tactic(auto, using(std::proofs::lemmas::Bool::Decides::nat_tests))]
fn refusal(kind: u8, key: usize, value: usize) -> Option<u8>
    requires small { key < 256 }
    requires fits { value < 2 ^ 32 }
    ensures { result ≡ code_of_head kind key value }
{
    if kind == 0 || 3 < kind {
        return Some(1);
    }
    if kind < 3 && key == 0 {
        return Some(2);
    }
    if kind < 3 && MAX_VALUE_BYTES < value {
        return Some(3);
    }
    if (kind == 2 && 0 < value) || (kind == 3 && 0 < key + value) {
        return Some(4);
    }
    None
}

#[derive(Clone, Copy)]
struct Head<'a> {
    kind: u8,
    key: usize,
    value: usize,
    content: &'a [u8],
}

fn head_of(bytes: &[u8]) -> Head<'_>
    requires { 6 ≤ length bytes.now }
    ensures kind { result.kind ≡ head_kind bytes.now }
    ensures key { result.key ≡ head_key bytes.now }
    ensures key_fits { result.key < 256 }
    ensures value { result.value ≡ head_value bytes.now }
    ensures value_fits { result.value < 2 ^ 32 }
    ensures content { result.content.now ≡ drop 6 bytes.now }
{
    let (lengths, rest) = bytes.split_at(2);
    let (field, content) = rest.split_at(4);
    Head {
        kind: lengths[0],
        key: lengths[1] as usize,
        value: u32::from_be_bytes([field[0], field[1], field[2], field[3]]) as usize,
        content,
    }
}

fn kind_of(kind: u8) -> Kind
    ensures { (key value : List ℕ) → request_of kind key value ≡ request_at result key value }
{
    match kind {
        1 => Kind::Put,
        2 => Kind::Get,
        _ => Kind::End,
    }
}

pub fn found_at(bytes: &[u8]) -> Found
    ensures { Shows result bytes.now (front false bytes.now) }
{
    if bytes.len() < 6 {
        return Found::More;
    }
    let head = head_of(bytes);
    if let Some(code) = refusal(head.kind, head.key, head.value) {
        return Found::Refused(code);
    }
    if head.content.len() < head.key + head.value {
        return Found::More;
    }
    Found::Whole(kind_of(head.kind), head.key, head.value)
}
