//! The rules that are built in.
ghost use Rattle.std.specs.Prelude.{◌≡◌, ◌++◌, flat_map, IfOk, OnOk};
ghost use Rattle.dmk_reading.specs.BuiltIn.{texts, rule_lines, rules_text, reads_rules};
ghost use Rattle.mk_macros.specs.Ranks.{defined_by};
ghost use Rattle.mk_reader.specs.BuiltIn.{built_in_name};
ghost use Rattle.mk_eval.specs.Output.{World};
ghost use Rattle.mk_eval.specs.Makefile.{GivesItems, TextItems, depth};

use crate::makefiles::Makefiles;
use mk_eval::{Includes, read_makefile};
use mk_macros::Macros;
use mk_profile::Profile;
use mk_reader::{BUILT_IN, Item, ReadFault};
use std::alloc::{AllocError, Global};

/// The suffixes that count before a makefile lists its own.
const SUFFIXES: &[u8] = b".SUFFIXES: .o .c .y .l .a .sh .cc .cpp .cxx .C .S\n";

const LINK_C: &[u8] = b"\t$(CC) $(CFLAGS) $(CPPFLAGS) $(LDFLAGS) -o $@ $< $(LDLIBS)\n";

const LINK_CXX: &[u8] = b"\t$(CXX) $(CXXFLAGS) $(CPPFLAGS) $(LDFLAGS) -o $@ $< $(LDLIBS)\n";

const COMPILE_C: &[u8] = b"\t$(CC) $(CFLAGS) $(CPPFLAGS) -c -o $@ $<\n";

const COMPILE_CXX: &[u8] = b"\t$(CXX) $(CXXFLAGS) $(CPPFLAGS) -c -o $@ $<\n";

const COPY: &[u8] = b"\tcp $< $@\n\tchmod a+x $@\n";

const YACC_OBJECT: &[u8] =
    b"\t$(YACC) $(YFLAGS) $<\n\t$(CC) $(CFLAGS) $(CPPFLAGS) -c -o $@ y.tab.c\n\trm -f y.tab.c\n";

const LEX_OBJECT: &[u8] =
    b"\t$(LEX) $(LFLAGS) $<\n\t$(CC) $(CFLAGS) $(CPPFLAGS) -c -o $@ lex.yy.c\n\trm -f lex.yy.c\n";

const YACC_SOURCE: &[u8] = b"\t$(YACC) $(YFLAGS) $<\n\tmv -f y.tab.c $@\n";

const LEX_SOURCE: &[u8] = b"\t$(LEX) $(LFLAGS) $<\n\tmv -f lex.yy.c $@\n";

/// The rules by their names, each with the lines of its recipe.
pub const RULES: [(&[u8], &[u8]); 17] = [
    (b".c", LINK_C),
    (b".cc", LINK_CXX),
    (b".cpp", LINK_CXX),
    (b".cxx", LINK_CXX),
    (b".C", LINK_CXX),
    (b".S", LINK_C),
    (b".sh", COPY),
    (b".c.o", COMPILE_C),
    (b".cc.o", COMPILE_CXX),
    (b".cpp.o", COMPILE_CXX),
    (b".cxx.o", COMPILE_CXX),
    (b".C.o", COMPILE_CXX),
    (b".S.o", COMPILE_C),
    (b".y.o", YACC_OBJECT),
    (b".l.o", LEX_OBJECT),
    (b".y.c", YACC_SOURCE),
    (b".l.c", LEX_SOURCE),
];

/// Whether the rules are read before makefiles in this language.
pub fn reads_rules(makefiles: &Makefiles, profile: Profile) -> bool
    ensures { result ≡ reads_rules makefiles.now profile }
{
    profile.is_wide() && !makefiles.without_rules
}

/// Appends a rule's lines.
fn append_rule(text: &mut Vec<u8>, name: &[u8], recipe: &[u8]) -> Result<(), AllocError>
    ensures { OnOk result (text.new.items ≡ text.old.items ++ rule_lines name.now recipe.now) }
{
    text.extend_from_slice(name)?;
    text.push(b':')?;
    text.push(b'\n')?;
    text.extend_from_slice(recipe)
}

/// Appends the lines of these rules.
fn append_rules(text: &mut Vec<u8>, rules: &[(&[u8], &[u8])]) -> Result<(), AllocError>
    ensures { OnOk result (text.new.items ≡ text.old.items ++ flat_map (λ rule. rule_lines rule.0 rule.1) (texts rules.now)) }
{
    for rule in rules {
        append_rule(text, rule.0, rule.1)?;
    }
    Ok(())
}

/// What is read in front of a makefile: the suffixes, and these rules.
fn rules_text(alloc: Global, rules: &[(&[u8], &[u8])]) -> Result<Vec<u8>, AllocError>
    ensures { IfOk result (λ text. text.items ≡ rules_text (texts rules.now)) }
{
    let mut text = Vec::new(alloc);
    text.extend_from_slice(SUFFIXES)?;
    append_rules(&mut text, rules)?;
    Ok(text)
}

/// The items of the suffixes and of these rules.
pub fn rules_before<I: Includes>(
    alloc: Global,
    macros: &mut Macros,
    rules: &[(&[u8], &[u8])],
    includes: &mut I,
) -> Result<Vec<Item>, ReadFault>
    ensures items { (world : World) → I.allows includes.new world → GivesItems result
        (TextItems world depth (defined_by macros.old) built_in_name (rules_text (texts rules.now))) }
    ensures grows { (world : World) → I.allows includes.new world → I.allows includes.old world }
{
    let text = rules_text(alloc, rules)?;
    read_makefile(alloc, macros, BUILT_IN, text.as_slice(), includes)
}
