// What a normalization that is not refused has written: so many bytes, and the statistics of the call.
use crate::stats::NormalizeSelfLoopsStats;

#[derive(Clone, Copy)]
pub struct Written {
    pub length: usize,
    pub stats: NormalizeSelfLoopsStats,
}
