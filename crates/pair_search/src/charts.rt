// The two charts of a search.
use chart_bytes::Chart;

/// Two charts: words are sought that separate the second from the first.
#[derive(Clone, Copy)]
pub struct Charts<'a> {
    pub first: &'a Chart<'a>,
    pub second: &'a Chart<'a>,
}
