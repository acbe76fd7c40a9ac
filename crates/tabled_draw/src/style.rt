//! How borders look.

ghost use Rattle.std.specs.Prelude.{◌≡◌};
ghost use Rattle.tabled_draw.specs.Styles.{style_named};
ghost use Rattle.tabled_draw.specs.declared.style.TheConstants.Style as style;

/// Which of the lines around rows, or around columns, are drawn. Around n of them are n + 1 lines.
///
/// Of this project.
#[derive(Clone, Copy, Debug, PartialEq, Eq)]
pub struct Lines {
    /// The line before the first one.
    pub first: bool,
    /// The line after the first one, also if it is the only one.
    pub second: bool,
    /// All lines between two.
    pub inner: bool,
    /// The line after the last one.
    pub last: bool,
}

/// How borders look: which lines are drawn, and by which characters.
///
/// A line that is not drawn takes no room. A corner stands where two lines that are drawn meet. It has an arm at each
/// side where a border ends, and none in the midst of a merged cell, so its character shows what meets there.
///
/// Ported from `tabled::settings::Style`.
#[derive(Clone, Copy, Debug, PartialEq, Eq)]
pub struct Style {
    /// What borders between rows are made of.
    pub horizontal: char,
    /// What borders between columns are made of.
    pub vertical: char,
    /// The corners, by the arms that they have, of which up counts 8, right 4, down 2 and left 1.
    pub corners: [char; 16],
    /// The lines around the rows.
    pub rows: Lines,
    /// The lines around the columns.
    pub columns: Lines,
}

impl Lines {
    /// All lines.
    const ALL: Lines = Lines {
        first: true,
        second: true,
        inner: true,
        last: true,
    };

    /// No line.
    const NONE: Lines = Lines {
        first: false,
        second: false,
        inner: false,
        last: false,
    };

    /// The lines between two.
    const INNER: Lines = Lines {
        first: false,
        second: false,
        inner: true,
        last: false,
    };

    /// The line below the header.
    const HEADER: Lines = Lines {
        first: false,
        second: true,
        inner: false,
        last: false,
    };

    /// The outer lines.
    const FRAME: Lines = Lines {
        first: true,
        second: false,
        inner: false,
        last: true,
    };

    /// The outer lines, and the line below the header.
    const FRAME_AND_HEADER: Lines = Lines {
        first: true,
        second: true,
        inner: false,
        last: true,
    };
}

const LIGHT_CORNERS: [char; 16] = [
    ' ', '╴', '╷', '┐', '╶', '─', '┌', '┬', '╵', '┘', '│', '┤', '└', '┴', '├', '┼',
];

impl Style {
    pub(crate) const ASCII: Style = Style {
        horizontal: '-',
        vertical: '|',
        corners: ['+'; 16],
        rows: Lines::ALL,
        columns: Lines::ALL,
    };

    pub(crate) const MODERN: Style = Style {
        horizontal: '─',
        vertical: '│',
        corners: LIGHT_CORNERS,
        rows: Lines::ALL,
        columns: Lines::ALL,
    };

    pub(crate) const SHARP: Style = Style {
        horizontal: '─',
        vertical: '│',
        corners: LIGHT_CORNERS,
        rows: Lines::FRAME_AND_HEADER,
        columns: Lines::ALL,
    };

    pub(crate) const ROUNDED: Style = Style {
        horizontal: '─',
        vertical: '│',
        corners: [
            ' ', '╴', '╷', '╮', '╶', '─', '╭', '┬', '╵', '╯', '│', '┤', '╰', '┴', '├', '┼',
        ],
        rows: Lines::FRAME_AND_HEADER,
        columns: Lines::ALL,
    };

    pub(crate) const EXTENDED: Style = Style {
        horizontal: '═',
        vertical: '║',
        corners: [
            ' ', '═', '║', '╗', '═', '═', '╔', '╦', '║', '╝', '║', '╣', '╚', '╩', '╠', '╬',
        ],
        rows: Lines::ALL,
        columns: Lines::ALL,
    };

    pub(crate) const PSQL: Style = Style {
        horizontal: '-',
        vertical: '|',
        corners: [
            ' ', '-', '|', '+', '-', '-', '+', '+', '|', '+', '|', '+', '+', '+', '+', '+',
        ],
        rows: Lines::HEADER,
        columns: Lines::INNER,
    };

    pub(crate) const MARKDOWN: Style = Style {
        horizontal: '-',
        vertical: '|',
        corners: [
            ' ', '-', '|', '|', '-', '-', '|', '|', '|', '|', '|', '|', '|', '|', '|', '|',
        ],
        rows: Lines::HEADER,
        columns: Lines::ALL,
    };

    pub(crate) const RE_STRUCTURED_TEXT: Style = Style {
        horizontal: '=',
        vertical: ' ',
        corners: [
            ' ', '=', ' ', ' ', '=', '=', ' ', ' ', ' ', ' ', ' ', ' ', ' ', ' ', ' ', ' ',
        ],
        rows: Lines::FRAME_AND_HEADER,
        columns: Lines::INNER,
    };

    pub(crate) const DOTS: Style = Style {
        horizontal: '.',
        vertical: ':',
        corners: [
            ' ', '.', '.', '.', '.', '.', '.', '.', ':', ':', ':', ':', ':', ':', ':', ':',
        ],
        rows: Lines::ALL,
        columns: Lines::ALL,
    };

    pub(crate) const ASCII_ROUNDED: Style = Style {
        horizontal: '-',
        vertical: '|',
        corners: [
            ' ', '-', '|', '.', '-', '-', '.', '-', '|', '\'', '|', '+', '\'', '-', '+', '+',
        ],
        rows: Lines::FRAME,
        columns: Lines::ALL,
    };

    pub(crate) const BLANK: Style = Style {
        horizontal: ' ',
        vertical: ' ',
        corners: [' '; 16],
        rows: Lines::NONE,
        columns: Lines::INNER,
    };

    pub(crate) const EMPTY: Style = Style {
        horizontal: ' ',
        vertical: ' ',
        corners: [' '; 16],
        rows: Lines::NONE,
        columns: Lines::NONE,
    };

    /// The names of the styles, as `named` takes them.
    ///
    /// Of this project.
    pub const NAMES: [&'static str; 12] = [
        "ascii",
        "modern",
        "rounded",
        "sharp",
        "extended",
        "psql",
        "markdown",
        "re_structured_text",
        "dots",
        "ascii_rounded",
        "blank",
        "empty",
    ];

    /// The style of a name, which is that of the function that gives it.
    ///
    /// Of this project.
    pub fn named(name: &str) -> Option<Self>
        ensures named { result ≡ style_named name.now }
    {
        match name {
            "ascii" => Some(Style::ASCII),
            "modern" => Some(Style::MODERN),
            "rounded" => Some(Style::ROUNDED),
            "sharp" => Some(Style::SHARP),
            "extended" => Some(Style::EXTENDED),
            "psql" => Some(Style::PSQL),
            "markdown" => Some(Style::MARKDOWN),
            "re_structured_text" => Some(Style::RE_STRUCTURED_TEXT),
            "dots" => Some(Style::DOTS),
            "ascii_rounded" => Some(Style::ASCII_ROUNDED),
            "blank" => Some(Style::BLANK),
            "empty" => Some(Style::EMPTY),
            _ => None,
        }
    }
}

impl Default for Style {
    ghost is_default = { λ s. s ≡ style.ASCII };

    fn default() -> Self {
        Style::ASCII
    }
}
