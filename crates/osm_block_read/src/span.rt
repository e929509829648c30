//! Parts of lists, by their places.
ghost use Rattle.std.specs.Prelude.{◌≡◌, ◌<◌, Some, length, slice_get};

/// The part of a list from `start` up to `end`, which isn't in it.
#[derive(Clone, Copy, Debug)]
pub(crate) struct Span {
    pub start: usize,
    pub end: usize,
}

/// The span at a place of a list.
#[inline(always)]
pub(crate) fn span_at(spans: &[Span], at: usize) -> Span
    requires { at < length spans.now }
    ensures { slice_get spans.now at ≡ Some result }
{
    spans[at]
}
