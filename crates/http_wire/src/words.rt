//! Words in bytes: without case, without the blanks around them, between commas.
ghost use Rattle.std.specs.Prelude.{◌≡◌, reverse};
ghost use Rattle.httparse.specs.Grammar.{skip_ows, trim_ows};
ghost use Rattle.http_model.specs.Fields.{is_same_word, skip_spaces, is_close, has_close};

use http_model::CLOSE;
use httparse::is_space_or_tab;

/// Whether two words are the same but for their case.
pub fn same_word(word: &[u8], other: &[u8]) -> bool
    ensures { result ≡ is_same_word word.now other.now }
{
    word.eq_ignore_ascii_case(other)
}

/// The bytes from the first that is no space.
pub fn skip_spaces(mut bytes: &[u8]) -> &[u8]
    ensures { result.now ≡ skip_spaces bytes.now }
{
    while let [first, rest @ ..] = bytes
        && *first == b' '
    {
        bytes = rest;
    }
    bytes
}

/// The bytes from the first that is no space and no tab.
fn trim_start(mut bytes: &[u8]) -> &[u8]
    ensures { result.now ≡ skip_ows bytes.now }
{
    while let [first, rest @ ..] = bytes
        && is_space_or_tab(*first)
    {
        bytes = rest;
    }
    bytes
}

/// The bytes up to the last that is no space and no tab.
fn trim_end(mut bytes: &[u8]) -> &[u8]
    ensures { result.now ≡ reverse (skip_ows (reverse bytes.now)) }
{
    while let [rest @ .., last] = bytes
        && is_space_or_tab(*last)
    {
        bytes = rest;
    }
    bytes
}

/// The bytes without the spaces and tabs around them.
pub fn trim(bytes: &[u8]) -> &[u8]
    ensures { result.now ≡ trim_ows bytes.now }
{
    trim_end(trim_start(bytes))
}

/// Whether a comma-separated member of the value is `close`, in any case.
#[tactic(auto, unfolding(http_model::specs::Fields::has_close))]
pub fn has_close(value: &[u8]) -> bool
    ensures { result ≡ has_close value.now }
{
    value.split(|b| *b == b',').any(|member| is_close(member))
}

/// Whether a member is `close` in any case, without the spaces and tabs around it.
fn is_close(member: &[u8]) -> bool
    ensures { result ≡ is_close member.now }
{
    same_word(trim(member), CLOSE)
}
