//! The recursive descent parser of expressions. Each rule is given
//! the parser of nested expressions as a parameter.

ghost use Rattle.std.specs.Prelude.{◌≡◌, ◌+◌, ◌<◌, MatchResult, List, drop, map, max};
ghost use Rattle.cel_syntax_lexer.specs.Token.{Token as SpecToken};
ghost use Rattle.cel_syntax_ast.specs.Term as tree;
ghost use Rattle.cel_syntax_ast.specs.Term.{term};
ghost use Rattle.cel_syntax_lexer.specs.declared.punctuator.Punctuator.TheVariants.{CloseSquare as close_square};
ghost use Rattle.cel_syntax_ast.specs.Calls as calls;
ghost use Rattle.cel_syntax.specs.Parser as spec;
ghost use Rattle.cel_syntax.specs.Ahead.{tokens_left, tokens_left as spec_left};
ghost use Rattle.cel_syntax.specs.Reads.{Reads, ReadsItems, ReadsEntries, ReadsPair};
ghost use Rattle.cel_syntax.specs.Nests.{Nests};
ghost use Rattle.cel_syntax.specs.Climb.{climb};
ghost use Rattle.cel_syntax.specs.declared.syntax_error.SyntaxError.TheVariants.{Memory};

use crate::cursor::Cursor;
use crate::syntax_error::SyntaxError;
use cel_syntax_ast::{
    BinaryOperator, Expr, UnaryOperator, binary, both, call, conditional, ident, identifier, index,
    method, parts_level, select, selector, unary,
};
use cel_syntax_lexer::punctuator::Punctuator;
use cel_syntax_lexer::token::Token;
use cel_syntax_lexer::{literal, takes_minus};
use std::alloc::Global;

/// How many levels the tree may be over a limit.
fn slack(tree: &Expr) -> usize
    ensures { result ≡ spec.slack (term tree.now) }
{
    match tree {
        Expr::Select(_, _) => 1,
        _ => 0,
    }
}

fn wrap(alloc: Global, sign: UnaryOperator, count: usize, inside: Expr) -> Result<Expr, SyntaxError>
    ensures { MatchResult result (λ e. term e ≡ spec.wrap sign count (term inside))
        (λ error. error ≡ Memory) }
{
    let mut tree = inside;
    for _turn in 0..count {
        tree = unary(alloc, sign, tree)?;
    }
    Ok(tree)
}

#[derive(Clone, Copy)]
pub struct Grammar<F> {
    pub alloc: Global,
    /// The largest level of a tree.
    pub limit: u8,
    /// Parses an expression of at most the given level.
    pub expr: F,
}

impl<F: Fn(Global, &mut Cursor<'_>, u8) -> Result<(Expr, usize), SyntaxError>> Grammar<F> {
    /// Parses a nested expression.
    #[tactic(auto, unfolding(crate::specs::Parser::below))]
    fn sub(&self, tokens: &mut Cursor<'_>) -> Result<(Expr, usize), SyntaxError>
        requires { Nests self.now.limit (F.pre self.now.expr) (F.post self.now.expr) }
        ensures { Reads (spec.below self.now.limit (tokens_left tokens.old)) result (tokens_left tokens.new) }
    {
        if self.limit == 0 {
            return Err(SyntaxError::Invalid);
        }
        (self.expr)(self.alloc, tokens, self.limit - 1)
    }

    /// Returns the tree at one level above the highest of its parts, if the limit allows it.
    #[tactic(auto, unfolding(crate::specs::Parser::above))]
    fn above(&self, level: usize, tree: Expr) -> Result<(Expr, usize), SyntaxError>
        ensures { (ts : List SpecToken) → Reads (spec.above self.now.limit level (term tree) ts) result ts }
    {
        if level < usize::from(self.limit) + slack(&tree) {
            Ok((tree, level + 1))
        } else {
            drop(tree);
            Err(SyntaxError::Invalid)
        }
    }

    /// Parses the items of a list or the arguments of a call, possibly none.
    fn items(&self, tokens: &mut Cursor<'_>) -> Result<(Vec<Expr>, usize), SyntaxError>
        requires { Nests self.now.limit (F.pre self.now.expr) (F.post self.now.expr) }
        ensures { ReadsItems (spec.items self.now.limit (spec.below self.now.limit) (tokens_left tokens.old))
            result (tokens_left tokens.new) }
    {
        let mut found = Vec::new(self.alloc);
        let mut high: usize = 0;
        if tokens.sees_end() {
            return Ok((found, high));
        }
        for _turn in 0..tokens.len() {
            let (item, level) = self.sub(tokens)?;
            found.push(item)?;
            high = high.max(level);
            if !tokens.goes_on() {
                return Ok((found, high));
            }
            let _comma = tokens.next();
        }
        Err(SyntaxError::Invalid)
    }

    /// Parses a key and its value.
    #[tactic(auto, unfolding(crate::specs::Parser::pair))]
    fn pair(&self, tokens: &mut Cursor<'_>) -> Result<((Expr, Expr), usize), SyntaxError>
        requires { Nests self.now.limit (F.pre self.now.expr) (F.post self.now.expr) }
        ensures { ReadsPair (spec.pair self.now.limit (spec.below self.now.limit) (tokens_left tokens.old))
            result (tokens_left tokens.new) }
    {
        let key = self.sub(tokens)?;
        if !tokens.eat(Punctuator::Colon) {
            drop(key);
            return Err(SyntaxError::Invalid);
        }
        let (value, key) = both(self.sub(tokens), Ok(key))?;
        Ok(((key.0, value.0), key.1.max(value.1)))
    }

    /// Parses the entries of a map, possibly none.
    fn entries(&self, tokens: &mut Cursor<'_>) -> Result<(Vec<(Expr, Expr)>, usize), SyntaxError>
        requires { Nests self.now.limit (F.pre self.now.expr) (F.post self.now.expr) }
        ensures { ReadsEntries (spec.entries self.now.limit (spec.below self.now.limit)
            (tokens_left tokens.old)) result (tokens_left tokens.new) }
    {
        let mut found = Vec::new(self.alloc);
        let mut high: usize = 0;
        if tokens.sees_end() {
            return Ok((found, high));
        }
        for _turn in 0..tokens.len() {
            let (entry, level) = self.pair(tokens)?;
            found.push(entry)?;
            high = high.max(level);
            if !tokens.goes_on() {
                return Ok((found, high));
            }
            let _comma = tokens.next();
        }
        Err(SyntaxError::Invalid)
    }

    /// Parses the arguments of a call and the closing bracket.
    #[tactic(auto, unfolding(crate::specs::Parser::arguments))]
    fn arguments(&self, tokens: &mut Cursor<'_>) -> Result<(Vec<Expr>, usize), SyntaxError>
        requires { Nests self.now.limit (F.pre self.now.expr) (F.post self.now.expr) }
        ensures { ReadsItems (spec.arguments self.now.limit (spec.below self.now.limit)
            (tokens_left tokens.old)) result (tokens_left tokens.new) }
    {
        let found = self.items(tokens)?;
        if tokens.eat(Punctuator::CloseRound) {
            Ok(found)
        } else {
            drop(found);
            Err(SyntaxError::Invalid)
        }
    }

    #[tactic(auto, unfolding(crate::specs::Parser::round))]
    fn round(&self, tokens: &mut Cursor<'_>) -> Result<(Expr, usize), SyntaxError>
        requires { Nests self.now.limit (F.pre self.now.expr) (F.post self.now.expr) }
        ensures { Reads (spec.round self.now.limit (spec.below self.now.limit) (tokens_left tokens.old))
            result (tokens_left tokens.new) }
    {
        let inside = self.sub(tokens)?;
        self.up_to_mark(tokens, Punctuator::CloseRound, inside)
    }

    /// Parses the closing punctuator of a tree whose parts were parsed.
    #[tactic(auto, unfolding(crate::specs::Parser::up_to_mark))]
    fn up_to_mark(
        &self,
        tokens: &mut Cursor<'_>,
        punctuator: Punctuator,
        inside: (Expr, usize),
    ) -> Result<(Expr, usize), SyntaxError>
        ensures { Reads (spec.up_to_mark self.now.limit punctuator (term inside.0)
            inside.1 (tokens_left tokens.old)) result (tokens_left tokens.new) }
    {
        if tokens.eat(punctuator) {
            self.above(inside.1, inside.0)
        } else {
            drop(inside);
            Err(SyntaxError::Invalid)
        }
    }

    /// Parses an optional comma and the closing punctuator of a tree whose parts were parsed.
    #[tactic(auto, unfolding(crate::specs::Parser::up_to_comma_and_mark))]
    fn up_to_comma_and_mark(
        &self,
        tokens: &mut Cursor<'_>,
        punctuator: Punctuator,
        inside: (Expr, usize),
    ) -> Result<(Expr, usize), SyntaxError>
        ensures { Reads (spec.up_to_comma_and_mark self.now.limit punctuator (term inside.0)
            inside.1 (tokens_left tokens.old)) result (tokens_left tokens.new) }
    {
        let _comma = tokens.eat(Punctuator::Comma);
        self.up_to_mark(tokens, punctuator, inside)
    }

    #[tactic(auto, unfolding(crate::specs::Parser::list))]
    fn list(&self, tokens: &mut Cursor<'_>) -> Result<(Expr, usize), SyntaxError>
        requires { Nests self.now.limit (F.pre self.now.expr) (F.post self.now.expr) }
        ensures { Reads (spec.list self.now.limit (spec.below self.now.limit) (tokens_left tokens.old))
            result (tokens_left tokens.new) }
    {
        let found = self.items(tokens)?;
        self.up_to_comma_and_mark(
            tokens,
            Punctuator::CloseSquare,
            (Expr::List(found.0), found.1),
        )
    }

    #[tactic(auto, unfolding(crate::specs::Parser::map))]
    fn map(&self, tokens: &mut Cursor<'_>) -> Result<(Expr, usize), SyntaxError>
        requires { Nests self.now.limit (F.pre self.now.expr) (F.post self.now.expr) }
        ensures { Reads (spec.map self.now.limit (spec.below self.now.limit) (tokens_left tokens.old))
            result (tokens_left tokens.new) }
    {
        let found = self.entries(tokens)?;
        self.up_to_comma_and_mark(
            tokens,
            Punctuator::CloseBrace,
            (Expr::Map(found.0), found.1),
        )
    }

    /// Returns the call of a global function with these arguments.
    fn global(
        &self,
        name: &str,
        arguments: (Vec<Expr>, usize),
    ) -> Result<(Expr, usize), SyntaxError>
        ensures { (ts : List SpecToken) → Reads (spec.above_call self.now.limit arguments.1
            (calls.call_of name.now (map term arguments.0.items)) ts) result ts }
    {
        match call(self.alloc, name, arguments.0)? {
            Some(tree) => self.above(parts_level(&tree, arguments.1), tree),
            None => Err(SyntaxError::Invalid),
        }
    }

    #[tactic(auto, unfolding(crate::specs::Parser::call_arguments))]
    fn call_arguments(
        &self,
        tokens: &mut Cursor<'_>,
        name: &str,
    ) -> Result<(Expr, usize), SyntaxError>
        requires { Nests self.now.limit (F.pre self.now.expr) (F.post self.now.expr) }
        ensures { Reads (spec.call_arguments self.now.limit (spec.below self.now.limit)
            name.now (tokens_left tokens.old)) result (tokens_left tokens.new) }
    {
        let arguments = self.arguments(tokens)?;
        self.global(name, arguments)
    }

    #[tactic(auto, unfolding(crate::specs::Parser::name_or_call))]
    fn name_or_call(
        &self,
        tokens: &mut Cursor<'_>,
        word: &[u8],
    ) -> Result<(Expr, usize), SyntaxError>
        requires { Nests self.now.limit (F.pre self.now.expr) (F.post self.now.expr) }
        ensures { Reads (spec.name_or_call self.now.limit (spec.below self.now.limit)
            word.now (tokens_left tokens.old)) result (tokens_left tokens.new) }
    {
        let Some(name) = identifier(word) else {
            return Err(SyntaxError::Invalid);
        };
        if tokens.eat(Punctuator::OpenRound) {
            self.call_arguments(tokens, name)
        } else {
            Ok((ident(self.alloc, name)?, 0))
        }
    }

    /// Parses a negative number. The minus was taken.
    #[tactic(auto, unfolding(crate::specs::Parser::negative))]
    fn negative(&self, tokens: &mut Cursor<'_>) -> Result<(Expr, usize), SyntaxError>
        ensures { Reads (spec.negative self.now.limit (spec.below self.now.limit) (tokens_left tokens.old))
            result (tokens_left tokens.new) }
    {
        let Some(token) = tokens.next() else {
            return Err(SyntaxError::Invalid);
        };
        if !takes_minus(token) {
            return Err(SyntaxError::Invalid);
        }
        match literal(self.alloc, true, token)? {
            Some(value) => Ok((Expr::Literal(value), 0)),
            None => Err(SyntaxError::Invalid),
        }
    }

    #[tactic(auto, unfolding(crate::specs::Parser::primary))]
    fn primary(&self, tokens: &mut Cursor<'_>) -> Result<(Expr, usize), SyntaxError>
        requires { Nests self.now.limit (F.pre self.now.expr) (F.post self.now.expr) }
        ensures { Reads (spec.primary self.now.limit (spec.below self.now.limit) (tokens_left tokens.old))
            result (tokens_left tokens.new) }
    {
        let Some(token) = tokens.next() else {
            return Err(SyntaxError::Invalid);
        };
        if let Some(value) = literal(self.alloc, false, token)? {
            return Ok((Expr::Literal(value), 0));
        }
        match token {
            Token::Word(word) => self.name_or_call(tokens, word),
            Token::Punctuator(Punctuator::OpenRound) => self.round(tokens),
            Token::Punctuator(Punctuator::OpenSquare) => self.list(tokens),
            Token::Punctuator(Punctuator::OpenBrace) => self.map(tokens),
            Token::Punctuator(Punctuator::Minus) => self.negative(tokens),
            _ => Err(SyntaxError::Invalid),
        }
    }

    /// Returns the call of a method with these arguments.
    fn method_with(
        &self,
        target: (Expr, usize),
        name: &str,
        arguments: (Vec<Expr>, usize),
    ) -> Result<(Expr, usize), SyntaxError>
        ensures { (ts : List SpecToken) → Reads (spec.above_if self.now.limit (max target.1 arguments.1)
            (calls.method_of (term target.0) name.now (map term arguments.0.items)) ts) result ts }
    {
        let level = target.1.max(arguments.1);
        match method(self.alloc, target.0, name, arguments.0)? {
            Some(tree) => self.above(level, tree),
            None => Err(SyntaxError::Invalid),
        }
    }

    /// Parses the arguments of a method call. The name and the opening bracket were taken.
    #[tactic(auto, unfolding(crate::specs::Parser::method))]
    fn method(
        &self,
        tokens: &mut Cursor<'_>,
        target: (Expr, usize),
        name: &str,
    ) -> Result<(Expr, usize), SyntaxError>
        requires { Nests self.now.limit (F.pre self.now.expr) (F.post self.now.expr) }
        ensures { Reads (spec.method self.now.limit (spec.below self.now.limit) (term target.0)
            target.1 name.now (tokens_left tokens.old)) result (tokens_left tokens.new) }
    {
        let (arguments, target) = both(self.arguments(tokens), Ok(target))?;
        self.method_with(target, name, arguments)
    }

    /// Returns the selection of this field.
    fn select(&self, target: (Expr, usize), name: &str) -> Result<(Expr, usize), SyntaxError>
        ensures { (ts : List SpecToken)
            → Reads (spec.above self.now.limit target.1 (tree.select (term target.0) name.now) ts) result ts }
    {
        let tree = select(self.alloc, target.0, name)?;
        self.above(target.1, tree)
    }

    /// Parses the rest of a field selection or a method call. The name was taken.
    #[tactic(auto, unfolding(crate::specs::Parser::selection_or_method))]
    fn selection_or_method(
        &self,
        tokens: &mut Cursor<'_>,
        target: (Expr, usize),
        word: &[u8],
    ) -> Result<(Expr, usize), SyntaxError>
        requires { Nests self.now.limit (F.pre self.now.expr) (F.post self.now.expr) }
        ensures { Reads (spec.selection_or_method self.now.limit (spec.below self.now.limit)
            (term target.0) target.1 word.now (tokens_left tokens.old)) result (tokens_left tokens.new) }
    {
        match selector(word) {
            Some(name) => {
                if tokens.eat(Punctuator::OpenRound) {
                    self.method(tokens, target, name)
                } else {
                    self.select(target, name)
                }
            }
            None => {
                drop(target);
                Err(SyntaxError::Invalid)
            }
        }
    }

    /// Parses a field selection or a method call. The dot was taken.
    #[tactic(auto, unfolding(crate::specs::Parser::field))]
    fn field(
        &self,
        tokens: &mut Cursor<'_>,
        target: (Expr, usize),
    ) -> Result<(Expr, usize), SyntaxError>
        requires { Nests self.now.limit (F.pre self.now.expr) (F.post self.now.expr) }
        ensures { Reads (spec.field self.now.limit (spec.below self.now.limit) (term target.0)
            target.1 (tokens_left tokens.old)) result (tokens_left tokens.new) }
    {
        match tokens.next() {
            Some(Token::Word(word)) => self.selection_or_method(tokens, target, word),
            _ => {
                drop(target);
                Err(SyntaxError::Invalid)
            }
        }
    }

    /// Parses the closing bracket of an index expression. The index was parsed.
    #[tactic(auto, unfolding(crate::specs::Parser::up_to_mark))]
    fn at_index(
        &self,
        tokens: &mut Cursor<'_>,
        target: (Expr, usize),
        at: (Expr, usize),
    ) -> Result<(Expr, usize), SyntaxError>
        ensures { Reads (spec.up_to_mark self.now.limit close_square (tree.index (term target.0) (term at.0))
            (max target.1 at.1) (tokens_left tokens.old)) result (tokens_left tokens.new) }
    {
        let level = target.1.max(at.1);
        let tree = index(self.alloc, target.0, at.0)?;
        self.up_to_mark(tokens, Punctuator::CloseSquare, (tree, level))
    }

    /// Parses an index expression. The opening bracket was taken.
    #[tactic(auto, unfolding(crate::specs::Parser::index))]
    fn index(
        &self,
        tokens: &mut Cursor<'_>,
        target: (Expr, usize),
    ) -> Result<(Expr, usize), SyntaxError>
        requires { Nests self.now.limit (F.pre self.now.expr) (F.post self.now.expr) }
        ensures { Reads (spec.index self.now.limit (spec.below self.now.limit) (term target.0)
            target.1 (tokens_left tokens.old)) result (tokens_left tokens.new) }
    {
        let (at, target) = both(self.sub(tokens), Ok(target))?;
        self.at_index(tokens, target, at)
    }

    /// Parses the field selections, method calls and indices that follow a primary.
    fn links(
        &self,
        tokens: &mut Cursor<'_>,
        mut found: (Expr, usize),
    ) -> Result<(Expr, usize), SyntaxError>
        requires { Nests self.now.limit (F.pre self.now.expr) (F.post self.now.expr) }
        ensures { Reads (spec.links self.now.limit (spec.below self.now.limit) (self.now.limit + 1)
            (term found.0) found.1 (tokens_left tokens.old)) result (tokens_left tokens.new) }
    {
        for _turn in 0..usize::from(self.limit) + 1 {
            if tokens.eat(Punctuator::Dot) {
                found = self.field(tokens, found)?;
            } else if tokens.eat(Punctuator::OpenSquare) {
                found = self.index(tokens, found)?;
            } else {
                return Ok(found);
            }
        }
        if tokens.sees(Punctuator::Dot) || tokens.sees(Punctuator::OpenSquare) {
            drop(found);
            return Err(SyntaxError::Invalid);
        }
        Ok(found)
    }

    #[tactic(auto, unfolding(crate::specs::Parser::member))]
    fn member(&self, tokens: &mut Cursor<'_>) -> Result<(Expr, usize), SyntaxError>
        requires { Nests self.now.limit (F.pre self.now.expr) (F.post self.now.expr) }
        ensures { Reads (spec.member self.now.limit (spec.below self.now.limit) (tokens_left tokens.old))
            result (tokens_left tokens.new) }
    {
        let found = self.primary(tokens)?;
        self.links(tokens, found)
    }

    /// Applies `count` signs to an operand.
    #[tactic(auto, unfolding(crate::specs::Parser::with_signs))]
    fn with_signs(
        &self,
        sign: UnaryOperator,
        count: usize,
        operand: (Expr, usize),
    ) -> Result<(Expr, usize), SyntaxError>
        ensures { (ts : List SpecToken)
            → Reads (spec.with_signs self.now.limit sign count (term operand.0, operand.1) ts) result ts }
    {
        if count == 0 {
            return Ok(operand);
        }
        let limit = usize::from(self.limit);
        let level = operand.1;
        if level > limit || count > limit - level {
            drop(operand);
            return Err(SyntaxError::Invalid);
        }
        Ok((wrap(self.alloc, sign, count, operand.0)?, level + count))
    }

    #[tactic(auto, unfolding(crate::specs::Parser::signed_member))]
    fn signed_member(
        &self,
        tokens: &mut Cursor<'_>,
        sign: UnaryOperator,
    ) -> Result<(Expr, usize), SyntaxError>
        requires { Nests self.now.limit (F.pre self.now.expr) (F.post self.now.expr) }
        ensures { Reads (spec.signed_member self.now.limit (spec.below self.now.limit)
            sign (tokens_left tokens.old)) result (tokens_left tokens.new) }
    {
        let count = tokens.signs(sign);
        let operand = self.member(tokens)?;
        self.with_signs(sign, count, operand)
    }

    #[tactic(auto, unfolding(crate::specs::Parser::unary_expression))]
    fn unary_expression(&self, tokens: &mut Cursor<'_>) -> Result<(Expr, usize), SyntaxError>
        requires { Nests self.now.limit (F.pre self.now.expr) (F.post self.now.expr) }
        ensures { Reads (spec.unary_expression self.now.limit (spec.below self.now.limit)
            (tokens_left tokens.old)) result (tokens_left tokens.new) }
    {
        if tokens.sees(Punctuator::Not) {
            self.signed_member(tokens, UnaryOperator::Not)
        } else {
            self.signed_member(tokens, UnaryOperator::Negate)
        }
    }

    /// Applies a binary operator to its operands.
    fn with_operator(
        &self,
        operator: BinaryOperator,
        left: (Expr, usize),
        right: (Expr, usize),
    ) -> Result<(Expr, usize), SyntaxError>
        ensures { (ts : List SpecToken) → Reads (spec.above self.now.limit (max left.1 right.1)
            (tree.binary operator (term left.0) (term right.0)) ts) result ts }
    {
        let level = left.1.max(right.1);
        let tree = binary(self.alloc, operator, left.0, right.0)?;
        self.above(level, tree)
    }

    /// Parses the right operand of an operator and applies the operator.
    #[cycle(operators)]
    fn with_operand(
        &self,
        tokens: &mut Cursor<'_>,
        below: u8,
        operator: BinaryOperator,
        left: (Expr, usize),
    ) -> Result<(Expr, usize), SyntaxError>
        requires { Nests self.now.limit (F.pre self.now.expr) (F.post self.now.expr) }
        ensures { Reads
            (spec.with_operand self.now.limit (spec.chain self.now.limit (spec.below self.now.limit) below)
            operator (term left.0) left.1 (drop 1 (spec_left tokens.old))) result (spec_left tokens.new) }
    {
        let _operator = tokens.next();
        let (right, left) = both(self.chain(tokens, below), Ok(left))?;
        self.with_operator(operator, left, right)
    }

    /// Parses the operators of one level that follow an operand, grouping to the
    /// left. Their operands are of the levels below.
    #[cycle(operators)]
    fn turns(
        &self,
        tokens: &mut Cursor<'_>,
        below: u8,
        mut found: (Expr, usize),
    ) -> Result<(Expr, usize), SyntaxError>
        requires nests { Nests self.now.limit (F.pre self.now.expr) (F.post self.now.expr) }
        requires level { below < 255 }
        ensures { Reads (spec.turns self.now.limit (spec.below self.now.limit)
            (spec.chain self.now.limit (spec.below self.now.limit) below) (below + 1) self.now.limit
            (term found.0) found.1 (tokens_left tokens.old)) result (tokens_left tokens.new) }
    {
        for _turn in 0..self.limit {
            let Some(operator) = tokens.operator(below + 1) else {
                return Ok(found);
            };
            found = self.with_operand(tokens, below, operator, found)?;
        }
        match tokens.operator(below + 1) {
            Some(_) => {
                drop(found);
                Err(SyntaxError::Invalid)
            }
            None => Ok(found),
        }
    }

    /// Parses the operators up to this level that follow an operand.
    #[cycle(operators)]
    fn climb(
        &self,
        tokens: &mut Cursor<'_>,
        level: u8,
        found: (Expr, usize),
    ) -> Result<(Expr, usize), SyntaxError>
        requires { Nests self.now.limit (F.pre self.now.expr) (F.post self.now.expr) }
        ensures { Reads (climb self.now.limit (spec.below self.now.limit) level
            (term found.0, found.1) (tokens_left tokens.old)) result (tokens_left tokens.new) }
    {
        if level == 0 {
            return Ok(found);
        }
        let found = self.climb(tokens, level - 1, found)?;
        self.turns(tokens, level - 1, found)
    }

    /// Parses an expression whose operators are of this level or below.
    #[cycle(operators)]
    fn chain(&self, tokens: &mut Cursor<'_>, level: u8) -> Result<(Expr, usize), SyntaxError>
        requires { Nests self.now.limit (F.pre self.now.expr) (F.post self.now.expr) }
        ensures { Reads (spec.chain self.now.limit (spec.below self.now.limit) level (tokens_left tokens.old))
            result (tokens_left tokens.new) }
    {
        let found = self.unary_expression(tokens)?;
        if !tokens.sees_operator() {
            return Ok(found);
        }
        self.climb(tokens, level, found)
    }

    /// Returns the conditional with these branches.
    fn with_branches(
        &self,
        test: (Expr, usize),
        yes: (Expr, usize),
        no: (Expr, usize),
    ) -> Result<(Expr, usize), SyntaxError>
        ensures { (ts : List SpecToken) → Reads (spec.above self.now.limit (max test.1 (max yes.1 no.1))
            (tree.conditional (term test.0) (term yes.0) (term no.0)) ts) result ts }
    {
        let level = test.1.max(yes.1.max(no.1));
        let tree = conditional(self.alloc, test.0, yes.0, no.0)?;
        self.above(level, tree)
    }

    /// Parses the branches of a conditional. The question mark was taken.
    #[tactic(auto, unfolding(crate::specs::Parser::branches))]
    fn branches(
        &self,
        tokens: &mut Cursor<'_>,
        test: (Expr, usize),
    ) -> Result<(Expr, usize), SyntaxError>
        requires { Nests self.now.limit (F.pre self.now.expr) (F.post self.now.expr) }
        ensures { Reads (spec.branches self.now.limit (spec.below self.now.limit)
            (term test.0) test.1 (tokens_left tokens.old)) result (tokens_left tokens.new) }
    {
        let (yes, test) = both(self.chain(tokens, 5), Ok(test))?;
        if !tokens.eat(Punctuator::Colon) {
            drop((test, yes));
            return Err(SyntaxError::Invalid);
        }
        let (no, (test, yes)) = both(self.sub(tokens), Ok((test, yes)))?;
        self.with_branches(test, yes, no)
    }

    #[tactic(auto, unfolding(crate::specs::Parser::expression))]
    fn expression(&self, tokens: &mut Cursor<'_>) -> Result<(Expr, usize), SyntaxError>
        requires { Nests self.now.limit (F.pre self.now.expr) (F.post self.now.expr) }
        ensures { Reads (spec.expression self.now.limit (spec.below self.now.limit) (tokens_left tokens.old))
            result (tokens_left tokens.new) }
    {
        let test = self.chain(tokens, 5)?;
        if tokens.eat(Punctuator::Question) {
            self.branches(tokens, test)
        } else {
            Ok(test)
        }
    }
}

/// Parses an expression of at most this level.
pub fn expr(alloc: Global, tokens: &mut Cursor<'_>, limit: u8) -> Result<(Expr, usize), SyntaxError>
    ensures { Reads (spec.expr limit (tokens_left tokens.old)) result (tokens_left tokens.new) }
{
    Grammar { alloc, limit, expr }.expression(tokens)
}
