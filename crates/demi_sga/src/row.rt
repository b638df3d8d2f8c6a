//! A row of at most eight pieces, which are linear: none is dropped, and none is copied.
ghost use Rattle.std.specs.Prelude.{◌≡◌, ◌+◌, ◌<◌, ◌≤◌, [], ◌∷◌, ◌++◌, length, take, drop};
ghost use mathlib.Core.Option.{some};
ghost use lib.ListN.{get_elem?};
ghost use Rattle.demi_sga.specs.Rows.{items};

/// The pieces of an array, by how many of its eight places are filled.
pub enum Row<T> {
    Empty,
    One(T),
    Two(T, T),
    Three(T, T, T),
    Four(T, T, T, T),
    Five(T, T, T, T, T),
    Six(T, T, T, T, T, T),
    Seven(T, T, T, T, T, T, T),
    Eight(T, T, T, T, T, T, T, T),
}

impl<T> Row<T> {
    /// How many pieces it has.
    pub fn len(&self) -> usize
        ensures { result ≡ length (items self.now) }
    {
        match self {
            Row::Empty => 0,
            Row::One(_) => 1,
            Row::Two(_, _) => 2,
            Row::Three(_, _, _) => 3,
            Row::Four(_, _, _, _) => 4,
            Row::Five(_, _, _, _, _) => 5,
            Row::Six(_, _, _, _, _, _) => 6,
            Row::Seven(_, _, _, _, _, _, _) => 7,
            Row::Eight(_, _, _, _, _, _, _, _) => 8,
        }
    }

    /// Puts a piece in front.
    pub fn push(self, x: T) -> Row<T>
        requires { length (items self) < 8 }
        ensures { items result ≡ x ∷ items self }
    {
        match self {
            Row::Empty => Row::One(x),
            Row::One(a) => Row::Two(x, a),
            Row::Two(a, b) => Row::Three(x, a, b),
            Row::Three(a, b, c) => Row::Four(x, a, b, c),
            Row::Four(a, b, c, d) => Row::Five(x, a, b, c, d),
            Row::Five(a, b, c, d, e) => Row::Six(x, a, b, c, d, e),
            Row::Six(a, b, c, d, e, f) => Row::Seven(x, a, b, c, d, e, f),
            Row::Seven(a, b, c, d, e, f, g) => Row::Eight(x, a, b, c, d, e, f, g),
            Row::Eight(_a, _b, _c, _d, _e, _f, _g, _h) => unreachable!(),
        }
    }

    /// Takes the front.
    pub fn pop(self) -> (T, Row<T>)
        requires { 0 < length (items self) }
        ensures { items self ≡ result.0 ∷ items result.1 }
    {
        match self {
            Row::Empty => unreachable!(),
            Row::One(a) => (a, Row::Empty),
            Row::Two(a, b) => (a, Row::One(b)),
            Row::Three(a, b, c) => (a, Row::Two(b, c)),
            Row::Four(a, b, c, d) => (a, Row::Three(b, c, d)),
            Row::Five(a, b, c, d, e) => (a, Row::Four(b, c, d, e)),
            Row::Six(a, b, c, d, e, f) => (a, Row::Five(b, c, d, e, f)),
            Row::Seven(a, b, c, d, e, f, g) => (a, Row::Six(b, c, d, e, f, g)),
            Row::Eight(a, b, c, d, e, f, g, h) => (a, Row::Seven(b, c, d, e, f, g, h)),
        }
    }

    /// Ends an empty row.
    pub fn end(self)
        requires { items self ≡ [] }
    {
        match self {
            Row::Empty => {}
            Row::One(_a) => unreachable!(),
            Row::Two(_a, _b) => unreachable!(),
            Row::Three(_a, _b, _c) => unreachable!(),
            Row::Four(_a, _b, _c, _d) => unreachable!(),
            Row::Five(_a, _b, _c, _d, _e) => unreachable!(),
            Row::Six(_a, _b, _c, _d, _e, _f) => unreachable!(),
            Row::Seven(_a, _b, _c, _d, _e, _f, _g) => unreachable!(),
            Row::Eight(_a, _b, _c, _d, _e, _f, _g, _h) => unreachable!(),
        }
    }

    /// The piece behind `i` others.
    pub fn at(&self, i: usize) -> &T
        requires { i < length (items self.now) }
        ensures { get_elem? (items self.now) i ≡ some result.now }
    {
        match self {
            Row::Empty => unreachable!(),
            Row::One(a) => a,
            Row::Two(a, b) => match i {
                0 => a,
                _ => b,
            },
            Row::Three(a, b, c) => match i {
                0 => a,
                1 => b,
                _ => c,
            },
            Row::Four(a, b, c, d) => match i {
                0 => a,
                1 => b,
                2 => c,
                _ => d,
            },
            Row::Five(a, b, c, d, e) => match i {
                0 => a,
                1 => b,
                2 => c,
                3 => d,
                _ => e,
            },
            Row::Six(a, b, c, d, e, f) => match i {
                0 => a,
                1 => b,
                2 => c,
                3 => d,
                4 => e,
                _ => f,
            },
            Row::Seven(a, b, c, d, e, f, g) => match i {
                0 => a,
                1 => b,
                2 => c,
                3 => d,
                4 => e,
                5 => f,
                _ => g,
            },
            Row::Eight(a, b, c, d, e, f, g, h) => match i {
                0 => a,
                1 => b,
                2 => c,
                3 => d,
                4 => e,
                5 => f,
                6 => g,
                _ => h,
            },
        }
    }

    /// The pieces of both in order.
    pub fn append(self, other: Row<T>) -> Row<T>
        requires { length (items self) + length (items other) ≤ 8 }
        ensures { items result ≡ items self ++ items other }
    {
        if self.len() == 0 {
            self.end();
            return other;
        }
        let (first, rest) = self.pop();
        rest.append(other).push(first)
    }

    /// The first `k` pieces, and the rest.
    pub fn split(self, k: usize) -> (Row<T>, Row<T>)
        requires { k ≤ length (items self) }
        ensures { (items result.0 ≡ take k (items self)) × (items result.1 ≡ drop k (items self)) }
    {
        if k == 0 {
            return (Row::Empty, self);
        }
        let (first, rest) = self.pop();
        let (front, back) = rest.split(k - 1);
        (front.push(first), back)
    }
}
