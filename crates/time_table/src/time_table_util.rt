// Whether a part and a row share an instant (the Rust's time_table_util.rs).
ghost use Rattle.std.specs.Prelude.{◌≡◌};
ghost use Rattle.time_table.specs.Overlap.{overlaps};

// Whether the instants from `lower` up to but without `upper` meet those from `start` to `end`.
pub fn has_overlap_with_interval(lower: u32, upper: u32, start: u32, end: u32) -> bool
    ensures { result ≡ overlaps lower upper start end }
{
    start < upper && lower <= end
}
