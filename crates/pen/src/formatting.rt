// 000's `impl FormattingState`: its methods in its order, under its names, each promised to run its list of commands of the definition.
//
// Some differ in a setting and a character alone. Each keeps 000's name and place, as a rule of the project has it, and a helper that they shared would be called as
// their two calls are.
//
// Not here: move_to_empty_line and exit_external_declaration, which only directives need; they come with request #101, with the two fields that they use.
#![tactic(auto, unfolding(crate::specs::Sheet::lay, crate::specs::Run::run, crate::specs::Run::step, crate::specs::Run::space_where, crate::specs::Run::line, crate::specs::Run::whiten, text::specs::Asked::flag, text::specs::Asked::gap, text::specs::Token::spell, text::specs::Pen::indent_of, words::specs::Symbol::symbol_text, words::specs::Word::word_text))]

ghost use Rattle.std.specs.Prelude.{◌≡◌, true, false, [], ◌∷◌};
ghost use Rattle.settings.specs.declared.Settings.{Settings};
ghost use Rattle.text.specs.Token.{Token};
ghost use Rattle.text.specs.Command.{enter_block_inner, enter_compound_statement_block, enter_external_declaration, enter_block, exit_block, enter_collapsed_compound_statement, exit_collapsed_compound_statement, enter_initializer_list, end_initializer_list, enter_case_label, write_else, write_struct_field_separator, write_list_separator, write_for_statement_separator, write_struct_declaration_terminator, write_declaration_terminator, write_binary_token, write_statement_terminator, write_function_definition_terminator, write_statement_opening_parenthesis, write_statement_closing_parenthesis};
ghost use Rattle.text.specs.Command.Command.{write_indent, write_line, flush_line, flush_space};
ghost use Rattle.text.specs.Pen.{pend, at_body};
ghost use Rattle.pen.specs.Sheet.{leave};
ghost use Rattle.pen.specs.Run.{deeper, shallower, asked};
ghost use Rattle.pen.specs.Promise.{Ran, Turned};

use crate::{Pen, tokens};
use settings::{IndentStyle, Settings};

impl Pen {
    // 000 IndentStyle::write at the level.
    fn write_indent(self, room: &mut [u8], s: Settings) -> Pen
        ensures { Ran s (write_indent ∷ []) room.old self room.new result }
    {
        let n = tokens::times(s.count, self.state.indentation_level);
        match s.indent_style {
            IndentStyle::None => self,
            IndentStyle::Tabs => self.write_run(room, b'\t', n),
            IndentStyle::Spaces => self.write_run(room, b' ', n),
        }
    }

    fn write_line(self, room: &mut [u8], s: Settings) -> Pen
        ensures { Ran s (write_line ∷ []) room.old self room.new result }
    {
        self.write_char(room, b'\n').write_indent(room, s)
    }

    // A newline only becomes pending.
    pub fn new_line(mut self, required: bool) -> Pen
        ensures { result ≡ leave (asked required self.state) self }
    {
        if required {
            self.state.new_line_pending = true;
        }
        self
    }

    pub fn consume_newline(mut self) -> Pen
        ensures { result ≡ leave (pend false self.state) self }
    {
        self.state.new_line_pending = false;
        self
    }

    // Here, and not when it is asked for, is the newline written.
    pub fn flush_line(self, room: &mut [u8], s: Settings) -> Pen
        ensures { Ran s (flush_line ∷ []) room.old self room.new result }
    {
        if self.state.new_line_pending {
            self.write_line(room, s).consume_newline()
        } else {
            self
        }
    }

    // It asks the settings for nothing.
    pub fn flush_space(self, room: &mut [u8]) -> Pen
        ensures { (s : Settings) → Ran s (flush_space ∷ []) room.old self room.new result }
    {
        if self.state.new_line_pending {
            self.write_char(room, b' ').consume_newline()
        } else {
            self
        }
    }

    pub fn enter_compound_statement_block(self, room: &mut [u8], s: Settings) -> Pen
        ensures { Ran s enter_compound_statement_block room.old self room.new result }
    {
        let top_level = self.state.in_function_definition_statement;
        self.write_space_if(room, s.space_before_open_block & top_level)
            .enter_block_inner(room, s)
    }

    pub fn enter_external_declaration(self, room: &mut [u8], s: Settings) -> Pen
        ensures { Ran s enter_external_declaration room.old self room.new result }
    {
        self.flush_line(room, s)
    }

    pub fn enter_block(self, room: &mut [u8], s: Settings) -> Pen
        ensures { Ran s enter_block room.old self room.new result }
    {
        self.write_space_if(room, s.space_before_open_block)
            .enter_block_inner(room, s)
    }

    fn enter_block_inner(self, room: &mut [u8], s: Settings) -> Pen
        ensures { Ran s enter_block_inner room.old self room.new result }
    {
        self.write_char(room, b'{')
            .indent()
            .new_line(s.newline_after_open_block)
    }

    pub fn exit_block(self, room: &mut [u8], s: Settings) -> Pen
        ensures { Ran s exit_block room.old self room.new result }
    {
        let pen = self.dedent().new_line(s.newline_before_close_block);
        let pen = pen.flush_line(room, s).write_char(room, b'}');
        pen.new_line(s.newline_after_close_block)
    }

    pub fn enter_function_definition_statement(mut self) -> Pen
        ensures { result ≡ leave (at_body true self.state) self }
    {
        self.state.in_function_definition_statement = true;
        self
    }

    pub fn consume_function_definition_statement(mut self) -> Pen
        ensures { result ≡ leave (at_body false self.state) self }
    {
        self.state.in_function_definition_statement = false;
        self
    }

    pub fn enter_collapsed_compound_statement(self, s: Settings) -> Pen
        ensures { Turned s enter_collapsed_compound_statement self result }
    {
        self.indent().new_line(s.newline_before_collapsed_statement)
    }

    pub fn exit_collapsed_compound_statement(self, s: Settings) -> Pen
        ensures { Turned s exit_collapsed_compound_statement self result }
    {
        self.dedent().new_line(s.newline_after_collapsed_statement)
    }

    pub fn enter_initializer_list(self, room: &mut [u8], s: Settings) -> Pen
        ensures { Ran s enter_initializer_list room.old self room.new result }
    {
        self.write_char(room, b'{')
            .write_space_if(room, s.spaces_surrounding_initializer_list_expressions)
    }

    pub fn end_initializer_list(self, room: &mut [u8], s: Settings) -> Pen
        ensures { Ran s end_initializer_list room.old self room.new result }
    {
        self.write_space_if(room, s.spaces_surrounding_initializer_list_expressions)
            .write_char(room, b'}')
    }

    pub fn enter_case_label(self, room: &mut [u8], s: Settings) -> Pen
        ensures { Ran s enter_case_label room.old self room.new result }
    {
        self.write_char(room, b':')
            .write_whitespace(room, s.case_label_terminator)
    }

    pub fn write_else(self, room: &mut [u8], s: Settings) -> Pen
        ensures { Ran s write_else room.old self room.new result }
    {
        self.write_space_if(room, s.space_before_else)
            .write_str(room, b"else")
            .write_char(room, b' ')
    }

    pub fn write_struct_field_separator(self, room: &mut [u8], s: Settings) -> Pen
        ensures { Ran s write_struct_field_separator room.old self room.new result }
    {
        self.write_char(room, b';')
            .write_whitespace(room, s.struct_field_separator)
    }

    pub fn write_list_separator(self, room: &mut [u8], s: Settings) -> Pen
        ensures { Ran s write_list_separator room.old self room.new result }
    {
        self.write_char(room, b',')
            .write_space_if(room, s.space_after_list_separator)
    }

    pub fn write_for_statement_separator(self, room: &mut [u8], s: Settings) -> Pen
        ensures { Ran s write_for_statement_separator room.old self room.new result }
    {
        self.write_char(room, b';')
            .write_space_if(room, s.space_after_for_statement_separator)
    }

    pub fn write_struct_declaration_terminator(self, room: &mut [u8], s: Settings) -> Pen
        ensures { Ran s write_struct_declaration_terminator room.old self room.new result }
    {
        self.write_char(room, b';')
            .write_whitespace(room, s.struct_declaration_terminator)
    }

    pub fn write_declaration_terminator(self, room: &mut [u8], s: Settings) -> Pen
        ensures { Ran s write_declaration_terminator room.old self room.new result }
    {
        self.write_char(room, b';')
            .write_whitespace(room, s.declaration_terminator)
    }

    // Any text may be the operator; it counts as the token that is spelled so.
    pub fn write_binary_op(self, room: &mut [u8], s: Settings, op: &[u8]) -> Pen
        ensures { Ran s (write_binary_token (Token.name op.now)) room.old self room.new result }
    {
        let spaces = s.spaces_around_binary_ops;
        self.write_space_if(room, spaces)
            .write_str(room, op)
            .write_space_if(room, spaces)
    }

    pub fn write_statement_terminator(self, room: &mut [u8], s: Settings) -> Pen
        ensures { Ran s write_statement_terminator room.old self room.new result }
    {
        self.write_char(room, b';')
            .write_whitespace(room, s.statement_terminator)
    }

    pub fn write_function_definition_terminator(self, room: &mut [u8], s: Settings) -> Pen
        ensures { Ran s write_function_definition_terminator room.old self room.new result }
    {
        self.write_whitespace(room, s.function_definition_terminator)
    }

    pub fn write_statement_opening_parenthesis(self, room: &mut [u8], s: Settings) -> Pen
        ensures { Ran s write_statement_opening_parenthesis room.old self room.new result }
    {
        self.write_space_if(room, s.spaces_surrounding_statement_parentheses)
            .write_char(room, b'(')
    }

    pub fn write_statement_closing_parenthesis(self, room: &mut [u8], s: Settings) -> Pen
        ensures { Ran s write_statement_closing_parenthesis room.old self room.new result }
    {
        self.write_char(room, b')')
            .write_space_if(room, s.spaces_surrounding_statement_parentheses)
    }

    // 000 counts the level in place. It stops at the last of 16 bits, which no tree of ours reaches.
    fn indent(mut self) -> Pen
        ensures { result ≡ leave (deeper self.state) self }
    {
        self.state.indentation_level = self.state.indentation_level.saturating_add(1);
        self
    }

    fn dedent(mut self) -> Pen
        ensures { result ≡ leave (shallower self.state) self }
    {
        self.state.indentation_level = self.state.indentation_level.saturating_sub(1);
        self
    }
}
