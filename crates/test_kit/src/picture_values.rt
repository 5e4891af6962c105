//! Values of pictures, where there are such positions.
use st_format::Picture;
use std::alloc::Allocator;

/// A value of a picture, or `None` where there is no such position.
pub fn value<A: Allocator>(
    picture: &Picture<A>,
    row: u32,
    column: u32,
    component: u8,
) -> Option<u16> {
    if picture.format().has_position(row, column, component) {
        Some(picture.get(row, column, component))
    } else {
        None
    }
}

/// Whether a picture has these values: row, column, component, and `None` where there is no such
/// position.
pub fn has_values<A: Allocator>(
    picture: &Picture<A>,
    values: &[(u32, u32, u8, Option<u16>)],
) -> bool {
    let mut has = true;
    for (row, column, component, wanted) in values {
        has &= value(picture, *row, *column, *component) == *wanted;
    }
    has
}

/// Sets a value of a picture where there is such a position, and tells whether the value fits.
pub fn set<A: Allocator>(
    picture: &mut Picture<A>,
    row: u32,
    column: u32,
    component: u8,
    value: u16,
) -> bool {
    let format = picture.format();
    let fits = value <= format.max_value();
    if fits && format.has_position(row, column, component) {
        picture.set(row, column, component, value);
    }
    fits
}
