// Tables written case by case.

/// The table of these cases, as `Cases::new` makes it: `cases!("break" => 3, "case" => 4)`. It goes inside a body.
#[macro_export]
macro_rules! cases {
    () => {
        $crate::Cases::new("", [])
    };
    ($first:literal => $value:expr $(, $key:literal => $other:expr)* $(,)?) => {
        $crate::Cases::new(concat!($first $(, " ", $key)*), [$value $(, $other)*])
    };
}

/// The table of these rows, as `Grid::new` makes it: `grid!([1, 2], [3, 4])`. It goes inside a body.
#[macro_export]
macro_rules! grid {
    ($([$($cell:expr),* $(,)?]),* $(,)?) => {
        $crate::Grid::new([$([$($cell),*]),*])
    };
}
