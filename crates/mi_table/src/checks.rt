//! The search for a table's first fault.
ghost use Rattle.std.specs.Prelude.{◌≡◌, ◌<◌, ◌≤◌, [], length, slice_index_or};
ghost use Rattle.mi_base.specs.Configuration.{IsTable};
ghost use Rattle.mi_base.specs.declared.limits.TheConstants.{MAX_DISTANCE};
ghost use Rattle.mi_base.specs.Space.{table_entry};
ghost use Rattle.mi_table.specs.Faults.{FindsFirst, IsSquare, possible_faults, lengths, diagonal, zeros, zeros_from, asymmetries, asymmetries_from, triangles, triangles_from, triangles_through};

use crate::TableFault;
use mi_base::TableRows;

/// Whether the table is a metric, else its first fault.
pub(crate) fn check(rows: &TableRows) -> Result<(), TableFault>
    requires { IsTable rows.now }
    ensures { FindsFirst rows.now (possible_faults (length rows.now)) result }
{
    check_lengths(rows)?;
    check_diagonal(rows)?;
    check_zeros(rows)?;
    check_symmetry(rows)?;
    check_triangles(rows)
}

/// How many rows there are.
fn size(rows: &TableRows) -> u32
    requires { IsTable rows.now }
    ensures { result ≡ length rows.now }
{
    rows.len() as u32
}

/// The distance from row i to row j.
#[tactic(auto, using(crate::specs::Laws::entry_small))]
pub(crate) fn entry(rows: &TableRows, i: u32, j: u32) -> u32
    requires table { IsTable rows.now }
    requires row { i < length rows.now }
    requires column { j < length (slice_index_or rows.now i []) }
    ensures entry { result ≡ table_entry rows.now i j }
    ensures small { result ≤ MAX_DISTANCE }
{
    rows.as_slice()[i as usize].as_slice()[j as usize]
}

fn check_lengths(rows: &TableRows) -> Result<(), TableFault>
    requires { IsTable rows.now }
    ensures { FindsFirst rows.now (lengths (length rows.now)) result }
{
    for row in 0..size(rows) {
        if rows.as_slice()[row as usize].len() != rows.len() {
            return Err(TableFault::NotSquare { row });
        }
    }
    Ok(())
}

fn check_diagonal(rows: &TableRows) -> Result<(), TableFault>
    requires table { IsTable rows.now }
    requires square { IsSquare rows.now }
    ensures { FindsFirst rows.now (diagonal (length rows.now)) result }
{
    for i in 0..size(rows) {
        if entry(rows, i, i) != 0 {
            return Err(TableFault::Diagonal { i });
        }
    }
    Ok(())
}

fn check_zeros(rows: &TableRows) -> Result<(), TableFault>
    requires table { IsTable rows.now }
    requires square { IsSquare rows.now }
    ensures { FindsFirst rows.now (zeros (length rows.now)) result }
{
    for i in 0..size(rows) {
        check_zeros_from(rows, i)?;
    }
    Ok(())
}

fn check_zeros_from(rows: &TableRows, i: u32) -> Result<(), TableFault>
    requires table { IsTable rows.now }
    requires square { IsSquare rows.now }
    requires row { i < length rows.now }
    ensures { FindsFirst rows.now (zeros_from (length rows.now) i) result }
{
    for j in 0..size(rows) {
        if i != j && entry(rows, i, j) == 0 {
            return Err(TableFault::Zero { i, j });
        }
    }
    Ok(())
}

fn check_symmetry(rows: &TableRows) -> Result<(), TableFault>
    requires table { IsTable rows.now }
    requires square { IsSquare rows.now }
    ensures { FindsFirst rows.now (asymmetries (length rows.now)) result }
{
    for i in 0..size(rows) {
        check_symmetry_from(rows, i)?;
    }
    Ok(())
}

fn check_symmetry_from(rows: &TableRows, i: u32) -> Result<(), TableFault>
    requires table { IsTable rows.now }
    requires square { IsSquare rows.now }
    requires row { i < length rows.now }
    ensures { FindsFirst rows.now (asymmetries_from (length rows.now) i) result }
{
    for j in 0..size(rows) {
        if i < j && entry(rows, i, j) != entry(rows, j, i) {
            return Err(TableFault::Asymmetric { i, j });
        }
    }
    Ok(())
}

fn check_triangles(rows: &TableRows) -> Result<(), TableFault>
    requires table { IsTable rows.now }
    requires square { IsSquare rows.now }
    ensures { FindsFirst rows.now (triangles (length rows.now)) result }
{
    for i in 0..size(rows) {
        check_triangles_from(rows, i)?;
    }
    Ok(())
}

fn check_triangles_from(rows: &TableRows, i: u32) -> Result<(), TableFault>
    requires table { IsTable rows.now }
    requires square { IsSquare rows.now }
    requires row { i < length rows.now }
    ensures { FindsFirst rows.now (triangles_from (length rows.now) i) result }
{
    for j in 0..size(rows) {
        check_triangles_through(rows, i, j)?;
    }
    Ok(())
}

fn check_triangles_through(rows: &TableRows, i: u32, j: u32) -> Result<(), TableFault>
    requires table { IsTable rows.now }
    requires square { IsSquare rows.now }
    requires row { i < length rows.now }
    requires through { j < length rows.now }
    ensures { FindsFirst rows.now (triangles_through (length rows.now) i j) result }
{
    let step = entry(rows, i, j);
    for k in 0..size(rows) {
        if entry(rows, i, k) > step + entry(rows, j, k) {
            return Err(TableFault::Triangle { i, j, k });
        }
    }
    Ok(())
}
