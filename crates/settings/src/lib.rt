// The settings of the text, and the state that goes with them: 000's IndentStyle, Whitespace, FormattingSettings and FormattingState.
#![tactic(auto, unfolding(crate::specs::Settings::style_of, crate::specs::Settings::whitespace_of, crate::specs::Settings::settings_of, crate::specs::Bytes::settings_bytes))]

ghost use Rattle.std.specs.Prelude.{◌≡◌};
ghost use Rattle.settings.specs.Answer.{Reads};
ghost use Rattle.settings.specs.Bytes.{style_byte, whitespace_byte, settings_bytes};
ghost use Rattle.settings.specs.Settings.{in_range, style_of, whitespace_of, settings_of, TIGHT, OPEN, EXPORT};
ghost use Rattle.settings.specs.State.{fresh};

// What a level is indented with. (000 keeps the count in here; a record may give a count without a style, so it is a field beside. 000's tab_size is never read.)
#[derive(Clone, Copy, Debug, PartialEq, Eq)]
pub enum IndentStyle {
    None = 0,
    Tabs = 1,
    Spaces = 2,
}

#[derive(Clone, Copy, Debug, PartialEq, Eq)]
pub enum Whitespace {
    None = 0,
    Space = 1,
    Newline = 2,
}

// What a byte of a record says; above its limit, what the limit does.
impl From<u8> for IndentStyle {
    ghost from_gives = { λ byte style. style ≡ style_of byte };

    fn from(byte: u8) -> IndentStyle {
        match byte {
            0 => IndentStyle::None,
            1 => IndentStyle::Tabs,
            _ => IndentStyle::Spaces,
        }
    }
}

impl From<u8> for Whitespace {
    ghost from_gives = { λ byte white. white ≡ whitespace_of byte };

    fn from(byte: u8) -> Whitespace {
        match byte {
            0 => Whitespace::None,
            1 => Whitespace::Space,
            _ => Whitespace::Newline,
        }
    }
}

// The byte that says it.
impl From<IndentStyle> for u8 {
    ghost from_gives = { λ style byte. byte ≡ style_byte style };

    fn from(style: IndentStyle) -> u8 {
        style as u8
    }
}

impl From<Whitespace> for u8 {
    ghost from_gives = { λ white byte. byte ≡ whitespace_byte white };

    fn from(white: Whitespace) -> u8 {
        white as u8
    }
}

// A field for each byte of the settings record, in its order, under the names of 000; the last is not of 000.
#[derive(Clone, Copy, Debug, PartialEq, Eq)]
pub struct Settings {
    pub indent_style: IndentStyle,
    pub count: u8,
    pub space_before_open_block: bool,
    pub newline_after_open_block: bool,
    pub newline_before_close_block: bool,
    pub newline_after_close_block: bool,
    pub newline_after_collapsed_statement: bool,
    pub newline_before_collapsed_statement: bool,
    pub struct_field_separator: Whitespace,
    pub struct_declaration_terminator: Whitespace,
    pub declaration_terminator: Whitespace,
    pub case_label_terminator: Whitespace,
    pub spaces_around_binary_ops: bool,
    pub statement_terminator: Whitespace,
    pub function_definition_terminator: Whitespace,
    pub collapse_single_item_compound_statements: bool,
    pub space_before_else: bool,
    pub space_after_list_separator: bool,
    pub space_after_for_statement_separator: bool,
    pub spaces_surrounding_initializer_list_expressions: bool,
    pub spaces_surrounding_statement_parentheses: bool,
    // A space stands where two tokens would be read as one, if no other stands there (02, #106).
    pub spaces_where_needed: bool,
}

// The state of the line layout. 000's holds the settings too, which go beside it here, and two fields that only directives use, which come with request #101.
#[derive(Clone, Copy, Debug, PartialEq, Eq)]
pub struct FormattingState {
    pub indentation_level: u16,
    pub new_line_pending: bool,
    pub in_function_definition_statement: bool,
}

// The highest value of a byte that says a style, a count, a flag, a Whitespace.
const STYLE: u8 = 2;

const WIDEST_INDENT: u8 = 16;

const FLAG: u8 = 1;

const WHITE: u8 = 2;

// A settings record has 21 bytes, or 22.
const FEWEST_BYTES: usize = 21;

// The highest value of each byte of a settings record, in the order of the fields.
static LIMITS: [u8; 22] = [
    STYLE,
    WIDEST_INDENT,
    FLAG,
    FLAG,
    FLAG,
    FLAG,
    FLAG,
    FLAG,
    WHITE,
    WHITE,
    WHITE,
    WHITE,
    FLAG,
    WHITE,
    WHITE,
    FLAG,
    FLAG,
    FLAG,
    FLAG,
    FLAG,
    FLAG,
    FLAG,
];

// Whether there are no more bytes than limits, each at most its limit.
fn in_range(bytes: &[u8], limits: &[u8]) -> bool
    ensures { result ≡ in_range bytes.now limits.now }
{
    bytes.len() <= limits.len() && bytes.iter().zip(limits).all(|(byte, limit)| byte <= limit)
}

impl Settings {
    // 01's TIGHT: all zero. It is not 000's minifying(), which collapses.
    pub const TIGHT: Settings = Settings {
        indent_style: IndentStyle::None,
        count: 0,
        space_before_open_block: false,
        newline_after_open_block: false,
        newline_before_close_block: false,
        newline_after_close_block: false,
        newline_after_collapsed_statement: false,
        newline_before_collapsed_statement: false,
        struct_field_separator: Whitespace::None,
        struct_declaration_terminator: Whitespace::None,
        declaration_terminator: Whitespace::None,
        case_label_terminator: Whitespace::None,
        spaces_around_binary_ops: false,
        statement_terminator: Whitespace::None,
        function_definition_terminator: Whitespace::None,
        collapse_single_item_compound_statements: false,
        space_before_else: false,
        space_after_list_separator: false,
        space_after_for_statement_separator: false,
        spaces_surrounding_initializer_list_expressions: false,
        spaces_surrounding_statement_parentheses: false,
        spaces_where_needed: false,
    };

    // 01's OPEN: everything apart, four spaces a level, no collapse.
    pub const OPEN: Settings = Settings {
        indent_style: IndentStyle::Spaces,
        count: 4,
        space_before_open_block: true,
        newline_after_open_block: true,
        newline_before_close_block: true,
        newline_after_close_block: true,
        newline_after_collapsed_statement: true,
        newline_before_collapsed_statement: true,
        struct_field_separator: Whitespace::Newline,
        struct_declaration_terminator: Whitespace::Newline,
        declaration_terminator: Whitespace::Newline,
        case_label_terminator: Whitespace::Newline,
        spaces_around_binary_ops: true,
        statement_terminator: Whitespace::Newline,
        function_definition_terminator: Whitespace::Newline,
        collapse_single_item_compound_statements: false,
        space_before_else: true,
        space_after_list_separator: true,
        space_after_for_statement_separator: true,
        spaces_surrounding_initializer_list_expressions: true,
        spaces_surrounding_statement_parentheses: true,
        spaces_where_needed: false,
    };

    // What an export should use (02, #106): TIGHT that keeps the spaces it needs.
    pub const EXPORT: Settings = Settings {
        spaces_where_needed: true,
        ..Settings::TIGHT
    };

    // The constants with a contract: a caller's proof sees a function's promise, not a constant's value.
    pub fn tight() -> Settings
        ensures { result ≡ settings_of TIGHT }
    {
        Settings::TIGHT
    }

    pub fn open() -> Settings
        ensures { result ≡ settings_of OPEN }
    {
        Settings::OPEN
    }

    pub fn export() -> Settings
        ensures { result ≡ settings_of EXPORT }
    {
        Settings::EXPORT
    }

    // The settings that a record of 22 bytes says, by place as docs/RECORDS.md numbers them: a pattern that names each byte would make this longer than 40 lines.
    fn of(bytes: [u8; 22]) -> Settings
        ensures { result ≡ settings_of bytes }
    {
        Settings {
            indent_style: IndentStyle::from(bytes[0]),
            count: bytes[1],
            space_before_open_block: bytes[2] == 1,
            newline_after_open_block: bytes[3] == 1,
            newline_before_close_block: bytes[4] == 1,
            newline_after_close_block: bytes[5] == 1,
            newline_after_collapsed_statement: bytes[6] == 1,
            newline_before_collapsed_statement: bytes[7] == 1,
            struct_field_separator: Whitespace::from(bytes[8]),
            struct_declaration_terminator: Whitespace::from(bytes[9]),
            declaration_terminator: Whitespace::from(bytes[10]),
            case_label_terminator: Whitespace::from(bytes[11]),
            spaces_around_binary_ops: bytes[12] == 1,
            statement_terminator: Whitespace::from(bytes[13]),
            function_definition_terminator: Whitespace::from(bytes[14]),
            collapse_single_item_compound_statements: bytes[15] == 1,
            space_before_else: bytes[16] == 1,
            space_after_list_separator: bytes[17] == 1,
            space_after_for_statement_separator: bytes[18] == 1,
            spaces_surrounding_initializer_list_expressions: bytes[19] == 1,
            spaces_surrounding_statement_parentheses: bytes[20] == 1,
            spaces_where_needed: bytes[21] == 1,
        }
    }

    // Reads a settings record; of other bytes there are none (refusal 1 of 01, by specs/Answer.antt).
    pub fn read(bytes: &[u8]) -> Option<Settings>
        ensures { Reads bytes.now result }
    {
        if bytes.len() < FEWEST_BYTES || !in_range(bytes, &LIMITS) {
            return None;
        }
        // A byte that is not there counts as 0.
        let mut whole = [0; 22];
        whole[..bytes.len()].copy_from_slice(bytes);
        Some(Settings::of(whole))
    }

    // The settings record that says these settings: `read` reads them from it, if the count is at most 16.
    pub fn to_bytes(self) -> [u8; 22]
        ensures { result ≡ settings_bytes self }
    {
        [
            u8::from(self.indent_style),
            self.count,
            u8::from(self.space_before_open_block),
            u8::from(self.newline_after_open_block),
            u8::from(self.newline_before_close_block),
            u8::from(self.newline_after_close_block),
            u8::from(self.newline_after_collapsed_statement),
            u8::from(self.newline_before_collapsed_statement),
            u8::from(self.struct_field_separator),
            u8::from(self.struct_declaration_terminator),
            u8::from(self.declaration_terminator),
            u8::from(self.case_label_terminator),
            u8::from(self.spaces_around_binary_ops),
            u8::from(self.statement_terminator),
            u8::from(self.function_definition_terminator),
            u8::from(self.collapse_single_item_compound_statements),
            u8::from(self.space_before_else),
            u8::from(self.space_after_list_separator),
            u8::from(self.space_after_for_statement_separator),
            u8::from(self.spaces_surrounding_initializer_list_expressions),
            u8::from(self.spaces_surrounding_statement_parentheses),
            u8::from(self.spaces_where_needed),
        ]
    }

    // The state that a text starts in, the same for all settings (000's From<&FormattingSettings>).
    pub fn fresh_state(self) -> FormattingState
        ensures { result ≡ fresh }
    {
        FormattingState {
            indentation_level: 0,
            new_line_pending: false,
            in_function_definition_statement: false,
        }
    }
}
