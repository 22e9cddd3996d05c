// The class of a comment by its content.
ghost use Rattle.std.specs.Prelude.{◌≡◌, length};
ghost use Rattle.comments.specs.Classing.{trimmed, property_key, key_ahead, coverage_ignore, coverage_ignore_file, star_class, word_class, rest_class, class_of};
ghost use Rattle.comments.specs.Examples.{examples, Classed};
ghost use Rattle.comments.specs.Rows.{block_kind};
ghost use Rattle.comments.specs.Rules.{ClassedBy};

use crate::comment::{CommentContent, CommentKind};
use crate::words::{
    contains_license_or_preserve_comment, has_capital_after, is_all_stars, is_marked, skip_blanks,
    starts_with_directive, starts_with_license,
};

fn is_coverage_ignore(bytes: &[u8]) -> bool
    ensures { result ≡ coverage_ignore bytes.now }
{
    bytes.starts_with(b"v8 ignore")
        || bytes.starts_with(b"c8 ignore")
        || bytes.starts_with(b"node:coverage")
        || bytes.starts_with(b"istanbul ignore")
}

fn is_coverage_ignore_file(bytes: &[u8]) -> bool
    ensures { result ≡ coverage_ignore_file bytes.now }
{
    starts_with_directive(bytes, b"v8 ignore file")
        || starts_with_directive(bytes, b"istanbul ignore file")
}

// Whether a property key can stand here: the key itself, or white space past ASCII before it.
fn may_be_property_key(rest: &[u8]) -> bool
    ensures { result ≡ key_ahead rest.now }
{
    is_marked(rest, b"__KEY__") || rest.first().is_some_and(|b| !b.is_ascii())
}

// The text without the white space at both ends. A name for the library's method, whose promise is by the property's code points.
fn trim(text: &str) -> &str
    ensures { result.now ≡ trimmed text.now }
{
    text.trim()
}

// Whether the content is just a key between white space.
fn is_property_key_annotation(content: &str) -> bool
    ensures { result ≡ property_key content.now }
{
    let key = trim(content);
    key == "@__KEY__" || key == "#__KEY__"
}

// The class that a word at the front of the rest gives, or else a license word anywhere in the content.
// One `if` for each rule, in the order of the specification, which a table of tests would only say at more length.
fn word_class(bytes: &[u8], rest: &[u8]) -> CommentContent
    ensures { result ≡ word_class bytes.now rest.now }
{
    if matches!(rest, b"@") {
        return CommentContent::None;
    }
    if rest.starts_with(b"@vite") {
        return CommentContent::Vite;
    }
    if starts_with_license(rest) {
        return CommentContent::Legal;
    }
    if has_capital_after(rest, b"webpack") {
        return CommentContent::Webpack;
    }
    if has_capital_after(rest, b"turbopack") {
        return CommentContent::Turbopack;
    }
    if is_coverage_ignore_file(rest) {
        return CommentContent::CoverageIgnoreFile;
    }
    if is_coverage_ignore(rest) {
        return CommentContent::CoverageIgnore;
    }
    if is_marked(rest, b"__PURE__") {
        return CommentContent::PureNotApplied;
    }
    if is_marked(rest, b"__NO_SIDE_EFFECTS__") {
        return CommentContent::NoSideEffectsNotApplied;
    }
    if contains_license_or_preserve_comment(bytes) {
        return CommentContent::Legal;
    }
    CommentContent::None
}

// The class that the rest gives, which is what stands past the content's leading blanks.
#[tactic(auto, unfolding(crate::specs::Classing::rest_class))]
fn rest_class(content: &str, rest: &[u8]) -> CommentContent
    ensures { result ≡ rest_class content.now rest.now }
{
    if rest.is_empty() {
        return CommentContent::None;
    }
    if may_be_property_key(rest) && is_property_key_annotation(content) {
        return CommentContent::PropertyKey;
    }
    word_class(content.as_bytes(), rest)
}

// The class of a block whose content begins with a star.
fn star_class(bytes: &[u8]) -> CommentContent
    ensures { result ≡ star_class bytes.now }
{
    if is_all_stars(bytes) {
        return CommentContent::None;
    }
    if contains_license_or_preserve_comment(bytes) {
        return CommentContent::JsdocLegal;
    }
    CommentContent::Jsdoc
}

// The class of the first rule that fits the content.
#[tactic(auto, unfolding(crate::specs::Classing::class_of))]
fn first_class(kind: CommentKind, content: &str) -> CommentContent
    ensures { result ≡ class_of (block_kind kind) content.now }
{
    let bytes = content.as_bytes();
    match bytes {
        [] => CommentContent::None,
        [b'!', ..] => CommentContent::Legal,
        [b'*', ..] if kind.is_block() => star_class(bytes),
        _ => rest_class(content, skip_blanks(bytes)),
    }
}

// The class of a comment by its content, which is the comment without the bytes that open and close it.
pub fn parse_annotation(kind: CommentKind, content: &str) -> CommentContent
    ensures value { result ≡ class_of (block_kind kind) content.now }
    ensures rules { ClassedBy (block_kind kind) content.now result }
    ensures only { (class : CommentContent) → ClassedBy (block_kind kind) content.now class → class ≡ result }
{
    first_class(kind, content)
}

// How many examples there are, each of which has its class.
pub fn classing_examples() -> u8
    ensures count { result ≡ length examples }
    ensures classed { Classed }
{
    28
}
