//! The table of goals.
use super::held::Held;

/// What the row tells; a state, its order that of the list; the place of what is set aside, if anything is; a goal; and
/// the state that is left, or none where the goal isn't met.
pub(crate) type Row = (
    &'static str,
    &'static [Held],
    Option<usize>,
    Held,
    Option<&'static [Held]>,
);

/// Goals that no block is folded for.
pub(crate) const PLAIN: &[Row] = &[
    (
        "equations join names in a chain",
        &[Held::Same(1, 2), Held::Same(3, 2)],
        None,
        Held::Same(1, 3),
        Some(&[Held::Same(1, 2), Held::Same(3, 2)]),
    ),
    (
        "equations in a ring join names",
        &[
            Held::Same(1, 2),
            Held::Same(2, 3),
            Held::Same(3, 1),
            Held::Same(4, 4),
            Held::Int(3),
        ],
        None,
        Held::Int(1),
        Some(&[
            Held::Same(1, 2),
            Held::Same(2, 3),
            Held::Same(3, 1),
            Held::Same(4, 4),
            Held::Int(3),
        ]),
    ),
    (
        "a name outside of a ring isn't joined",
        &[
            Held::Same(1, 2),
            Held::Same(2, 1),
            Held::Same(4, 4),
            Held::Int(4),
        ],
        None,
        Held::Int(1),
        None,
    ),
    (
        "a name that stands nowhere equals itself",
        &[Held::Int(1)],
        None,
        Held::Same(7, 7),
        Some(&[Held::Int(1)]),
    ),
    (
        "and no other",
        &[Held::Int(1)],
        None,
        Held::Same(7, 8),
        None,
    ),
    (
        "a duplicable permission beside an affine one of the name stays",
        &[Held::Named(1, 0), Held::Int(1)],
        None,
        Held::Int(1),
        Some(&[Held::Named(1, 0), Held::Int(1)]),
    ),
    (
        "and the affine one goes from beside it",
        &[Held::Int(1), Held::Named(1, 0)],
        None,
        Held::Named(1, 0),
        Some(&[Held::Int(1)]),
    ),
    (
        "names of two classes aren't equal",
        &[Held::Same(1, 2)],
        None,
        Held::Same(1, 3),
        None,
    ),
    (
        "of each name nothing may be said",
        &[],
        None,
        Held::Unknown(5),
        Some(&[]),
    ),
    (
        "an integer serves under another name",
        &[Held::Int(2), Held::Same(1, 2)],
        None,
        Held::Int(1),
        Some(&[Held::Int(2), Held::Same(1, 2)]),
    ),
    (
        "another name's integer doesn't serve",
        &[Held::Int(2)],
        None,
        Held::Int(1),
        None,
    ),
    (
        "the first affine permission goes",
        &[
            Held::Same(1, 2),
            Held::Named(2, 0),
            Held::Int(9),
            Held::Named(1, 0),
        ],
        None,
        Held::Named(1, 0),
        Some(&[Held::Same(1, 2), Held::Int(9), Held::Named(1, 0)]),
    ),
    (
        "an immutable block serves with joined names",
        &[Held::Same(5, 7), Held::Same(8, 7), Held::Two(1, 2, 5, 6)],
        None,
        Held::Two(1, 2, 8, 6),
        Some(&[Held::Same(5, 7), Held::Same(8, 7), Held::Two(1, 2, 5, 6)]),
    ),
    (
        "a mutable block goes",
        &[Held::Same(7, 5), Held::One(1, 0, 5, None), Held::Same(1, 3)],
        None,
        Held::One(3, 0, 7, None),
        Some(&[Held::Same(7, 5), Held::Same(1, 3)]),
    ),
    (
        "a lock serves with joined names",
        &[Held::Same(5, 7), Held::Lock(1, 5)],
        None,
        Held::Lock(1, 7),
        Some(&[Held::Same(5, 7), Held::Lock(1, 5)]),
    ),
    (
        "a block goal isn't met by a data type",
        &[Held::Named(1, 0)],
        None,
        Held::One(1, 0, 5, None),
        None,
    ),
    (
        "what may be adopted serves",
        &[Held::Same(2, 1), Held::Dynamic(2)],
        None,
        Held::Dynamic(1),
        Some(&[Held::Same(2, 1), Held::Dynamic(2)]),
    ),
    (
        "what is exclusive may be adopted",
        &[Held::Same(1, 2), Held::Named(2, 0)],
        None,
        Held::Dynamic(1),
        Some(&[Held::Same(1, 2), Held::Named(2, 0), Held::Dynamic(1)]),
    ),
    (
        "an immutable block may not",
        &[Held::Empty(1, 1)],
        None,
        Held::Dynamic(1),
        None,
    ),
];

/// Goals of a data type, by blocks.
pub(crate) const FOLDED: &[Row] = &[
    (
        "a block without fields is folded, and the whole kept",
        &[Held::Empty(1, 1)],
        None,
        Held::Named(1, 1),
        Some(&[Held::Empty(1, 1), Held::Named(1, 1)]),
    ),
    (
        "a list is folded with its tail",
        &[Held::Int(5), Held::Empty(6, 1), Held::Two(1, 2, 5, 6)],
        None,
        Held::Named(1, 1),
        Some(&[
            Held::Int(5),
            Held::Empty(6, 1),
            Held::Two(1, 2, 5, 6),
            Held::Named(6, 1),
            Held::Named(1, 1),
        ]),
    ),
    (
        "a mutable block goes, and may be adopted",
        &[Held::Same(1, 2), Held::Int(5), Held::One(2, 0, 5, None)],
        None,
        Held::Named(1, 0),
        Some(&[Held::Same(1, 2), Held::Int(5), Held::Dynamic(2)]),
    ),
    (
        "an affine whole isn't kept, and its content goes",
        &[
            Held::Int(5),
            Held::One(2, 0, 5, None),
            Held::One(1, 4, 2, None),
        ],
        None,
        Held::Named(1, 3),
        Some(&[Held::Int(5), Held::One(1, 4, 2, None), Held::Dynamic(2)]),
    ),
    (
        "a field takes the first of its class",
        &[
            Held::Same(1, 2),
            Held::Named(2, 0),
            Held::Named(1, 0),
            Held::One(3, 4, 1, None),
        ],
        None,
        Held::Named(3, 3),
        Some(&[
            Held::Same(1, 2),
            Held::Named(1, 0),
            Held::One(3, 4, 1, None),
        ]),
    ),
    (
        "a block is folded no second time",
        &[Held::Int(5), Held::Two(1, 2, 5, 1)],
        None,
        Held::Named(1, 1),
        None,
    ),
    (
        "no second block is tried",
        &[Held::Two(1, 2, 5, 6), Held::Empty(1, 1)],
        None,
        Held::Named(1, 1),
        None,
    ),
    (
        "a block with its data type's clause is folded",
        &[Held::Int(5), Held::One(1, 3, 5, Some(0))],
        None,
        Held::Named(1, 2),
        Some(&[Held::Int(5), Held::Dynamic(1)]),
    ),
    (
        "a block with another clause isn't",
        &[Held::Int(5), Held::One(1, 3, 5, Some(2))],
        None,
        Held::Named(1, 2),
        None,
    ),
    (
        "the first block without a foreign clause is folded",
        &[
            Held::Int(5),
            Held::One(1, 3, 5, Some(2)),
            Held::One(1, 3, 5, Some(0)),
        ],
        None,
        Held::Named(1, 2),
        Some(&[Held::Int(5), Held::One(1, 3, 5, Some(2)), Held::Dynamic(1)]),
    ),
    (
        "where the second field isn't met the first takes nothing",
        &[Held::Named(2, 0), Held::Two(1, 5, 2, 6)],
        None,
        Held::Named(1, 3),
        None,
    ),
    (
        "fields are met in their order",
        &[Held::Int(6), Held::Named(2, 0), Held::Two(1, 5, 2, 6)],
        None,
        Held::Named(1, 3),
        Some(&[Held::Int(6), Held::Two(1, 5, 2, 6)]),
    ),
    (
        "a block with too many names isn't",
        &[Held::Int(5), Held::Two(1, 0, 5, 5)],
        None,
        Held::Named(1, 0),
        None,
    ),
];

/// Goals while a permission is set aside.
pub(crate) const BESIDE: &[Row] = &[
    (
        "what is set aside isn't taken, and keeps its place",
        &[Held::Int(4), Held::Named(1, 0), Held::Named(1, 0)],
        Some(1),
        Held::Named(1, 0),
        Some(&[Held::Int(4), Held::Named(1, 0)]),
    ),
    (
        "it meets no goal",
        &[Held::Named(1, 0)],
        Some(0),
        Held::Named(1, 0),
        None,
    ),
    (
        "its name may not be adopted by it",
        &[Held::Named(1, 2)],
        Some(0),
        Held::Dynamic(1),
        None,
    ),
];
