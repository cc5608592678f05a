use lisp_data::{NoMemory, Rows, Sexp, Text, Value};
use lisp_packages::{NameFault, Packages};
use std::alloc::Global;
use std::test::*;

/// Two texts with a third between them.
fn joined(alloc: Global, first: &Text, joint: &str, last: &Text) -> Result<Text, NoMemory> {
    let mut text = Text::of(alloc, first.as_str())?;
    text.push_str(joint)?;
    text.push_str(last.as_str())?;
    Ok(text)
}

/// The home, two colons and the name of a token's symbol, or the refusal in words.
fn told(
    packages: &mut Packages,
    alloc: Global,
    package: &str,
    token: &str,
) -> Result<Text, NoMemory> {
    let package = Text::of(alloc, package)?;
    let token = Text::of(alloc, token)?;
    match packages.resolve(&package, &token) {
        Ok(name) => {
            let symbol = name.symbol();
            joined(alloc, &symbol.home, "::", &symbol.name)
        }
        Err(NameFault::NoPackage(name)) => joined(
            alloc,
            &Text::of(alloc, "no package")?,
            " ",
            &name,
        ),
        Err(NameFault::NotExternal(name, home)) => joined(alloc, &name, " not external in ", &home),
        Err(NameFault::Clash) => Text::of(alloc, "clash"),
        Err(NameFault::NoMemory) => Err(NoMemory),
    }
}

/// Whether a token is told so.
fn tells(
    packages: &mut Packages,
    alloc: Global,
    package: &str,
    token: &str,
    want: &str,
) -> Result<bool, NoMemory> {
    let text = told(packages, alloc, package, token)?;
    Ok(text.as_str() == want)
}

#[test]
fn tokens_in_three_packages(rt: HostRuntime) -> Result<(), Fail> {
    let alloc = rt.alloc();
    let rows = [
        ("COMMON-LISP-USER", "CAR", "COMMON-LISP::CAR"),
        ("CL-USER", "ZZ", "COMMON-LISP-USER::ZZ"),
        (
            "CL-USER",
            "CL-USER:ZZ",
            "ZZ not external in COMMON-LISP-USER",
        ),
        (
            "CL-USER",
            "CL-USER:CAR",
            "CAR not external in COMMON-LISP-USER",
        ),
        ("CL-USER", "CL-USER::CAR", "COMMON-LISP::CAR"),
        ("CL-USER", "NOPE:X", "no package NOPE"),
        ("NOPE", "CL-USER:YY", "no package NOPE"),
        ("CL-USER", "CL:NIL", "COMMON-LISP::NIL"),
        ("CL-USER", "CL::NEW", "NEW not external in COMMON-LISP"),
        ("CL", "NEW", "NEW not external in COMMON-LISP"),
        ("CL", "CAR", "COMMON-LISP::CAR"),
        ("CL-USER", "KEYWORD:NEW", "NEW not external in KEYWORD"),
        ("CL-USER", ":NEW", "KEYWORD::NEW"),
        ("CL-USER", "KEYWORD:NEW", "KEYWORD::NEW"),
        ("KEYWORD", "OTHER", "KEYWORD::OTHER"),
        ("CL", "KEYWORD:OTHER", "KEYWORD::OTHER"),
        ("KEYWORD", "CAR", "KEYWORD::CAR"),
        ("KEYWORD", "CL-USER::ZZ", "COMMON-LISP-USER::ZZ"),
    ];
    let mut packages = Packages::new(alloc)?;
    for (package, token, want) in rows {
        assert!(rt;
            tells(&mut packages, alloc, package, token, want)?,
            "{package} {token}"
        );
    }
    Ok(())
}

/// Whether CL-USER has a symbol FRESH.
fn is_made(packages: &Packages, alloc: Global) -> Result<bool, NoMemory> {
    let user = Text::of(alloc, "CL-USER")?;
    let fresh = Text::of(alloc, "FRESH")?;
    Ok(packages.find_symbol(&user, &fresh).is_some())
}

/// The form of a token.
fn token(alloc: Global, token: &str) -> Result<Sexp, NoMemory> {
    Ok(Sexp::Sym(Text::of(alloc, token)?))
}

/// The form `(FRESH CL-USER:FRESH)`, whose second token is refused.
fn refused(alloc: Global) -> Result<Sexp, NoMemory> {
    let mut items = Rows::new(alloc);
    items.push(token(alloc, "FRESH")?)?;
    items.push(token(alloc, "CL-USER:FRESH")?)?;
    Ok(Sexp::List(items))
}

/// Whether a form has a value in CL-USER.
fn has_value(packages: &mut Packages, alloc: Global, form: &Sexp) -> Result<bool, NoMemory> {
    let user = Text::of(alloc, "CL-USER")?;
    match packages.value_of(&user, form) {
        Ok(_) => Ok(true),
        Err(_) => Ok(false),
    }
}

/// Whether a form's value can be looked at in CL-USER.
fn has_look(packages: &Packages, alloc: Global, form: &Sexp) -> Result<bool, NoMemory> {
    let user = Text::of(alloc, "CL-USER")?;
    match packages.look(&user, form) {
        Ok(_) => Ok(true),
        Err(_) => Ok(false),
    }
}

/// Whether the form is refused and makes nothing.
fn refuses(packages: &mut Packages, alloc: Global) -> Result<bool, NoMemory> {
    let form = refused(alloc)?;
    let has = has_value(packages, alloc, &form)?;
    let made = is_made(packages, alloc)?;
    Ok(!has && !made)
}

/// Whether the symbol can be looked at without its being made.
fn looks(packages: &Packages, alloc: Global) -> Result<bool, NoMemory> {
    let form = token(alloc, "FRESH")?;
    let has = has_look(packages, alloc, &form)?;
    let made = is_made(packages, alloc)?;
    Ok(has && !made)
}

/// Whether the symbol is made where its value is wanted.
fn makes(packages: &mut Packages, alloc: Global) -> Result<bool, NoMemory> {
    let form = token(alloc, "FRESH")?;
    let has = has_value(packages, alloc, &form)?;
    let made = is_made(packages, alloc)?;
    Ok(has && made)
}

#[test]
fn a_refused_form_makes_no_symbol(rt: HostRuntime) -> Result<(), Fail> {
    let alloc = rt.alloc();
    let mut packages = Packages::new(alloc)?;
    assert!(rt; refuses(&mut packages, alloc)?);
    Ok(())
}

#[test]
fn a_look_makes_no_symbol(rt: HostRuntime) -> Result<(), Fail> {
    let alloc = rt.alloc();
    let packages = Packages::new(alloc)?;
    assert!(rt; looks(&packages, alloc)?);
    Ok(())
}

#[test]
fn a_value_makes_its_symbol(rt: HostRuntime) -> Result<(), Fail> {
    let alloc = rt.alloc();
    let mut packages = Packages::new(alloc)?;
    assert!(rt; makes(&mut packages, alloc)?);
    Ok(())
}

/// Whether CL:NIL is the empty list.
fn nil_is_the_empty_list(packages: &mut Packages, alloc: Global) -> Result<bool, NoMemory> {
    let user = Text::of(alloc, "CL-USER")?;
    let form = token(alloc, "CL:NIL")?;
    match packages.value_of(&user, &form) {
        Ok(none) => Ok(none.same(&Value::nil(alloc))),
        Err(_) => Ok(false),
    }
}

#[test]
fn nil_is_a_list(rt: HostRuntime) -> Result<(), Fail> {
    let alloc = rt.alloc();
    let mut packages = Packages::new(alloc)?;
    assert!(rt; nil_is_the_empty_list(&mut packages, alloc)?);
    Ok(())
}

/// Whether a text is there and is this one.
fn is_text(found: Option<&Text>, want: &str) -> bool {
    match found {
        Some(text) => text.as_str() == want,
        None => false,
    }
}

/// Whether CL-USER is found by its nickname, and prompts are the shortest names.
fn names_are_known(packages: &Packages, user: &Text, keyword: &Text) -> bool {
    is_text(packages.find_package(user), "COMMON-LISP-USER")
        && is_text(packages.prompt(user), "CL-USER")
        && is_text(packages.prompt(keyword), "KEYWORD")
}

/// Whether packages, uses and own symbols have their places.
fn places_are_known(packages: &Packages, user: &Text) -> bool {
    is_text(packages.package_at(0), "COMMON-LISP")
        && packages.package_at(3).is_none()
        && is_text(packages.used_at(user, 0), "COMMON-LISP")
        && packages.used_at(user, 1).is_none()
        && packages.own_at(user, 0).is_none()
}

/// Whether the first symbol of COMMON-LISP is QUOTE.
fn quote_is_first(packages: &Packages, alloc: Global) -> Result<bool, NoMemory> {
    let lisp = Text::of(alloc, "CL")?;
    match packages.own_at(&lisp, 0) {
        Some((symbol, _)) => Ok(symbol.symbol().name.as_str() == "QUOTE"),
        None => Ok(false),
    }
}

/// Whether a REPL may be in a package, under this name.
fn is_there(packages: &Packages, package: &Text, want: &str) -> bool {
    match packages.in_package(package) {
        Ok(whole) => whole.as_str() == want,
        Err(_) => false,
    }
}

/// Whether all of this holds, and CL-USER is where a REPL may be.
fn knows(packages: &Packages, alloc: Global) -> Result<bool, NoMemory> {
    let user = Text::of(alloc, "CL-USER")?;
    let keyword = Text::of(alloc, "KEYWORD")?;
    let is_whole = is_there(packages, &user, "COMMON-LISP-USER");
    let is_first = quote_is_first(packages, alloc)?;
    Ok(
        is_first
            && is_whole
            && names_are_known(packages, &user, &keyword)
            && places_are_known(packages, &user),
    )
}

#[test]
fn names_prompts_and_places(rt: HostRuntime) -> Result<(), Fail> {
    let alloc = rt.alloc();
    let packages = Packages::new(alloc)?;
    assert!(rt; knows(&packages, alloc)?);
    Ok(())
}

/// What interning a name in a package comes to.
fn interned(
    packages: &mut Packages,
    alloc: Global,
    package: &str,
    name: &str,
) -> Result<&'static str, NoMemory> {
    let package = Text::of(alloc, package)?;
    let name = Text::of(alloc, name)?;
    match packages.intern(&package, &name) {
        Ok(_) => Ok("made"),
        Err(NameFault::Clash) => Ok("clash"),
        Err(_) => Ok("refused"),
    }
}

/// Interns a name in CL-USER and exports it from a package; whether both can be had.
fn exports(
    packages: &mut Packages,
    alloc: Global,
    package: &str,
    name: &str,
) -> Result<bool, NoMemory> {
    let user = Text::of(alloc, "CL-USER")?;
    let package = Text::of(alloc, package)?;
    let name = Text::of(alloc, name)?;
    match packages.intern(&user, &name) {
        Ok(symbol) => Ok(packages.export(&package, &symbol).is_ok()),
        Err(_) => Ok(false),
    }
}

/// Makes CL-USER a user of KEYWORD, if that can be had.
fn uses_keywords(packages: &mut Packages, alloc: Global) -> Result<bool, NoMemory> {
    let user = Text::of(alloc, "CL-USER")?;
    let keyword = Text::of(alloc, "KEYWORD")?;
    Ok(packages.use_package(&user, &keyword).is_ok())
}

/// Whether a keyword that would clash with a symbol of a package which uses KEYWORD is refused, and another seen there.
fn keywords_are_seen(packages: &mut Packages, alloc: Global) -> Result<bool, NoMemory> {
    let is_exported = exports(packages, alloc, "CL-USER", "X")?;
    let is_used = uses_keywords(packages, alloc)?;
    let x = interned(packages, alloc, "KEYWORD", "X")?;
    let y = interned(packages, alloc, "KEYWORD", "Y")?;
    let is_seen = tells(packages, alloc, "CL-USER", "Y", "KEYWORD::Y")?;
    Ok(is_exported && is_used && is_seen && x == "clash" && y == "made")
}

#[test]
fn keywords_are_seen_where_they_are_used(rt: HostRuntime) -> Result<(), Fail> {
    let alloc = rt.alloc();
    let mut packages = Packages::new(alloc)?;
    assert!(rt; keywords_are_seen(&mut packages, alloc)?);
    Ok(())
}

/// Whether a symbol that is exported is seen through one colon, and may be exported from KEYWORD too.
fn exports_are_seen(packages: &mut Packages, alloc: Global) -> Result<bool, NoMemory> {
    let is_exported = exports(packages, alloc, "CL-USER", "X")?;
    let is_seen = tells(
        packages,
        alloc,
        "KEYWORD",
        "CL-USER:X",
        "COMMON-LISP-USER::X",
    )?;
    let is_keyword_too = exports(packages, alloc, "KEYWORD", "X")?;
    Ok(is_exported && is_seen && is_keyword_too)
}

#[test]
fn an_export_is_seen_through_one_colon(rt: HostRuntime) -> Result<(), Fail> {
    let alloc = rt.alloc();
    let mut packages = Packages::new(alloc)?;
    assert!(rt; exports_are_seen(&mut packages, alloc)?);
    Ok(())
}

/// The names as texts; none of the empty one.
fn names(alloc: Global, name: &str) -> Result<Rows<Text>, NoMemory> {
    let mut names = Rows::new(alloc);
    if !name.is_empty() {
        names.push(Text::of(alloc, name)?)?;
    }
    Ok(names)
}

/// What defining a package with this one use and this one export comes to.
fn defined(
    packages: &mut Packages,
    alloc: Global,
    name: &str,
    used: &str,
    exported: &str,
) -> Result<&'static str, NoMemory> {
    let name = Text::of(alloc, name)?;
    let used = names(alloc, used)?;
    let exported = names(alloc, exported)?;
    match packages.define_package(&name, used.as_slice(), exported.as_slice()) {
        Ok(()) => Ok("defined"),
        Err(NameFault::NoPackage(_)) => Ok("no package"),
        Err(NameFault::NotExternal(..)) => Ok("not external"),
        Err(NameFault::Clash) => Ok("clash"),
        Err(NameFault::NoMemory) => Err(NoMemory),
    }
}

/// Whether defining a package with this one use and this one export comes to that.
fn defines(
    packages: &mut Packages,
    alloc: Global,
    name: &str,
    used: &str,
    exported: &str,
    want: &str,
) -> Result<bool, NoMemory> {
    let told = defined(packages, alloc, name, used, exported)?;
    Ok(told == want)
}

#[test]
fn packages_are_made_and_widened_unless_they_clash(rt: HostRuntime) -> Result<(), Fail> {
    let alloc = rt.alloc();
    let mut packages = Packages::new(alloc)?;
    for (name, used, exported, want) in [
        ("P", "CL", "A", "defined"),
        ("P", "", "CONS", "defined"),
        ("Q", "NOPE", "A", "no package"),
        ("Q", "", "A", "defined"),
        ("R", "P", "", "defined"),
        ("R", "Q", "", "clash"),
        ("CL", "", "NEW", "not external"),
        ("CL", "NOPE", "NEW", "no package"),
    ] {
        assert!(rt;
            defines(&mut packages, alloc, name, used, exported, want)?,
            "{name}"
        );
    }
    for (package, token, want) in [
        ("CL-USER", "P:A", "P::A"),
        ("P", "CONS", "COMMON-LISP::CONS"),
        ("CL-USER", "P:CONS", "COMMON-LISP::CONS"),
        ("R", "A", "P::A"),
        ("R", "CDR", "R::CDR"),
    ] {
        assert!(rt;
            tells(&mut packages, alloc, package, token, want)?,
            "{package} {token}"
        );
    }
    Ok(())
}

#[test]
fn tokens_where_a_package_is_made_beside_the_others(rt: HostRuntime) -> Result<(), Fail> {
    let alloc = rt.alloc();
    let mut packages = Packages::new(alloc)?;
    assert!(rt; defines(&mut packages, alloc, "P", "CL", "OPEN", "defined")?);
    for (package, token, want) in [
        ("P", "CAR", "COMMON-LISP::CAR"),
        ("P", "OPEN", "P::OPEN"),
        ("P", "HIDDEN", "P::HIDDEN"),
        ("P", ":HIDDEN", "KEYWORD::HIDDEN"),
        ("P", "CL:CAR", "COMMON-LISP::CAR"),
        ("P", "Q:OPEN", "no package Q"),
        ("P", "Q::OPEN", "no package Q"),
        ("Q", "OPEN", "no package Q"),
        ("Q", ":OPEN", "no package Q"),
        ("Q", "R:OPEN", "no package Q"),
        ("CL-USER", "OPEN", "COMMON-LISP-USER::OPEN"),
        ("CL-USER", "P:OPEN", "P::OPEN"),
        ("CL-USER", "P::OPEN", "P::OPEN"),
        ("CL-USER", "P:HIDDEN", "HIDDEN not external in P"),
        ("CL-USER", "P::HIDDEN", "P::HIDDEN"),
        ("CL-USER", "P:CAR", "CAR not external in P"),
        ("CL-USER", "P::CAR", "COMMON-LISP::CAR"),
        ("CL-USER", "P:NEW", "NEW not external in P"),
        ("CL-USER", "P::NEW", "P::NEW"),
        ("CL", "OPEN", "OPEN not external in COMMON-LISP"),
        ("CL", "P:OPEN", "P::OPEN"),
        ("KEYWORD", "P:OPEN", "P::OPEN"),
        ("KEYWORD", "HIDDEN", "KEYWORD::HIDDEN"),
        ("KEYWORD", "KEYWORD:HIDDEN", "KEYWORD::HIDDEN"),
    ] {
        assert!(rt;
            tells(&mut packages, alloc, package, token, want)?,
            "{package} {token}"
        );
    }
    Ok(())
}
