// What stands at the front of a link's input, read in place.
ghost use Rattle.std.specs.Prelude.{◌≡◌, ◌∷◌, ◌≤◌, ◌<◌, ◌^◌, [], true, length, drop, take, MatchOption, IfSome};
ghost use Rattle.demi_spec.specs.Input.{asked, code_of_head};
ghost use Rattle.demi_audit.specs.Asking.{ask_by, asks, key_in, rest_of, size_of, value_in};

use crate::entries::number_of_4;

/// A request, by the lengths of its parts, or the refused end of an input.
#[derive(Clone, Copy, Debug, PartialEq, Eq)]
pub(crate) enum Ask {
    Put { key: usize, value: usize },
    Get { key: usize },
    End,
    Refused { code: u8 },
}

/// How many bytes come before a request's key.
const HEAD_BYTES: usize = 6;

const MAX_VALUE_BYTES: usize = 65_536;

// The code of an input that ends inside a frame.
const CUT_SHORT: u8 = 5;

// Why a head is refused.
#[tactic(auto, using(std::proofs::lemmas::Bool::Decides::nat_tests))]
fn refusal(kind: u8, key: usize, value: usize) -> Option<u8>
    requires key { key < 256 }
    requires value { value < 2 ^ 32 }
    ensures { result ≡ code_of_head kind key value }
{
    if kind == 0 || 3 < kind {
        return Some(1);
    }
    if kind < 3 && key == 0 {
        return Some(2);
    }
    if kind < 3 && MAX_VALUE_BYTES < value {
        return Some(3);
    }
    if (kind == 2 && 0 < value) || (kind == 3 && 0 < key + value) {
        return Some(4);
    }
    None
}

// The request with this head, which is not refused.
#[tactic(auto, using(std::proofs::lemmas::Bool::Decides::nat_tests))]
fn ask_by(kind: u8, key: usize, value: usize) -> Ask
    ensures { result ≡ ask_by kind key value }
{
    if kind == 1 {
        return Ask::Put { key, value };
    }
    if kind == 2 {
        return Ask::Get { key };
    }
    Ask::End
}

/// What an input asks first, if anything. Nothing is looked at behind an end frame and a refused frame.
pub(crate) fn next_ask(input: &[u8]) -> Option<Ask>
    ensures asked { MatchOption result (asked input.now true ≡ []) (λ a. asked input.now true ≡ asks a input.now ∷ asked (rest_of a input.now) true) }
    ensures within { IfSome result (λ a. size_of a ≤ length input.now) }
{
    if input.is_empty() {
        return None;
    }
    if input.len() < HEAD_BYTES {
        return Some(Ask::Refused { code: CUT_SHORT });
    }
    let kind = input[0];
    let key = input[1] as usize;
    let value = number_of_4(&input[2..HEAD_BYTES]) as usize;
    if let Some(code) = refusal(kind, key, value) {
        return Some(Ask::Refused { code });
    }
    if input.len() - HEAD_BYTES < key + value {
        return Some(Ask::Refused { code: CUT_SHORT });
    }
    Some(ask_by(kind, key, value))
}

/// What follows a request, or nothing where nothing more is looked at.
pub(crate) fn behind(ask: Ask, input: &[u8]) -> &[u8]
    requires { size_of ask ≤ length input.now }
    ensures { result.now ≡ rest_of ask input.now }
{
    match ask {
        Ask::Put { key, value } => &input[HEAD_BYTES + (key + value)..],
        Ask::Get { key } => &input[HEAD_BYTES + key..],
        Ask::End | Ask::Refused { .. } => &[],
    }
}

/// The key of a put or get; nothing else has one.
pub(crate) fn key_in(ask: Ask, input: &[u8]) -> &[u8]
    requires { size_of ask ≤ length input.now }
    ensures { result.now ≡ key_in ask input.now }
{
    match ask {
        Ask::Put { key, .. } | Ask::Get { key } => &input[HEAD_BYTES..HEAD_BYTES + key],
        Ask::End | Ask::Refused { .. } => &[],
    }
}

/// The value of a put; nothing else has one.
pub(crate) fn value_in(ask: Ask, input: &[u8]) -> &[u8]
    requires { size_of ask ≤ length input.now }
    ensures { result.now ≡ value_in ask input.now }
{
    match ask {
        Ask::Put { key, value } => {
            let start = HEAD_BYTES + key;
            &input[start..start + value]
        }
        Ask::Get { .. } | Ask::End | Ask::Refused { .. } => &[],
    }
}
