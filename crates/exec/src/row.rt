// Three things in a row, in the order of Stream::ALL: the one at a position, and another put in its place. (Choices of two stay in
// registers; an index into an array of structs does not.)
ghost use Rattle.std.specs.Prelude.{◌≡◌};
ghost use Rattle.exec.specs.Row.{at, put};

pub fn at<T: Copy>(index: usize, row: [T; 3]) -> T
    ensures { (other : T) → result ≡ at index other row }
{
    let later = if index == 1 { row[1] } else { row[2] };
    if index == 0 { row[0] } else { later }
}

pub fn put<T: Copy>(index: usize, item: T, row: [T; 3]) -> [T; 3]
    ensures { (other : T) → result ≡ put index item other row }
{
    [
        if index == 0 { item } else { row[0] },
        if index == 1 { item } else { row[1] },
        if (index == 0) | (index == 1) {
            row[2]
        } else {
            item
        },
    ]
}
