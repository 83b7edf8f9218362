// The first places of a slice, or all of fewer.

pub fn first<T>(slice: &[T], n: usize) -> &[T] {
    let end = n.min(slice.len());
    &slice[..end]
}

pub fn first_mut<T>(slice: &mut [T], n: usize) -> &mut [T] {
    let end = n.min(slice.len());
    &mut slice[..end]
}
