//! Each function on a handful of cases, in the order of the table: bounds of 64 bits, empty lists, ends, text past ASCII.
use super::gives;
use std::test::Fail;

#[test]
fn sums_and_products(rt: HostRuntime) -> Result<(), Fail> {
    let alloc = rt.alloc();
    for (call, want) in [
        ("(+ 1 2 3)", "6"),
        ("(+ -9223372036854775808 9223372036854775807)", "-1"),
        (
            "(+ -9223372036854775808 -1)",
            "#<ARITHMETIC-ERROR \"Integer out of range.\">",
        ),
        ("(*)", "1"),
        ("(* -3 7)", "-21"),
        ("(* 4294967296 2147483647)", "9223372032559808512"),
        (
            "(* 4294967296 2147483648 0)",
            "#<ARITHMETIC-ERROR \"Integer out of range.\">",
        ),
        ("(- 10 1 2)", "7"),
        ("(- 0 9223372036854775807 1)", "-9223372036854775808"),
        (
            "(- -9223372036854775808)",
            "#<ARITHMETIC-ERROR \"Integer out of range.\">",
        ),
        (
            "(-)",
            "#<PROGRAM-ERROR \"Wrong number of arguments for -.\">",
        ),
        ("(abs -5)", "5"),
        ("(abs 9223372036854775807)", "9223372036854775807"),
        (
            "(abs -9223372036854775808)",
            "#<ARITHMETIC-ERROR \"Integer out of range.\">",
        ),
        ("(1+ -1)", "0"),
        (
            "(1+ 9223372036854775807)",
            "#<ARITHMETIC-ERROR \"Integer out of range.\">",
        ),
        ("(1- 0)", "-1"),
        (
            "(1- -9223372036854775808)",
            "#<ARITHMETIC-ERROR \"Integer out of range.\">",
        ),
        (
            "(1- 1 2)",
            "#<PROGRAM-ERROR \"Wrong number of arguments for 1-.\">",
        ),
        (
            "(1+ nil)",
            "#<TYPE-ERROR \"The value NIL is not of type INTEGER.\">",
        ),
    ] {
        assert!(rt; gives(alloc, call, want)?, "{call}");
    }
    Ok(())
}

#[test]
fn quotients_and_remainders(rt: HostRuntime) -> Result<(), Fail> {
    let alloc = rt.alloc();
    for (call, want) in [
        ("(/ -9 3)", "-3"),
        ("(/ 0 5)", "0"),
        ("(/ 1 0)", "#<DIVISION-BY-ZERO \"Division by zero.\">"),
        (
            "(/ -9223372036854775808 -1)",
            "#<ARITHMETIC-ERROR \"Integer out of range.\">",
        ),
        (
            "(/ 4)",
            "#<PROGRAM-ERROR \"Wrong number of arguments for /.\">",
        ),
        ("(floor 7 2)", "3"),
        ("(floor 7 -2)", "-4"),
        ("(floor -7 -2)", "3"),
        (
            "(floor -9223372036854775808 -1)",
            "#<ARITHMETIC-ERROR \"Integer out of range.\">",
        ),
        ("(floor 7 0)", "#<DIVISION-BY-ZERO \"Division by zero.\">"),
        ("(mod 7 2)", "1"),
        ("(mod -7 2)", "1"),
        ("(mod 7 -2)", "-1"),
        ("(mod -9223372036854775808 -1)", "0"),
        ("(truncate 7 -2)", "-3"),
        ("(truncate -7 -2)", "3"),
        (
            "(truncate 1 0)",
            "#<DIVISION-BY-ZERO \"Division by zero.\">",
        ),
        ("(rem 7 2)", "1"),
        ("(rem -7 2)", "-1"),
        ("(rem 7 -2)", "1"),
        ("(rem 1 0)", "#<DIVISION-BY-ZERO \"Division by zero.\">"),
        (
            "(rem a b)",
            "#<TYPE-ERROR \"The value A is not of type INTEGER.\">",
        ),
    ] {
        assert!(rt; gives(alloc, call, want)?, "{call}");
    }
    Ok(())
}

#[test]
fn comparisons(rt: HostRuntime) -> Result<(), Fail> {
    let alloc = rt.alloc();
    for (call, want) in [
        ("(min 3 1 2)", "1"),
        ("(min -9223372036854775808 0)", "-9223372036854775808"),
        ("(max 5)", "5"),
        ("(max -2 -1)", "-1"),
        (
            "(max 1 a)",
            "#<TYPE-ERROR \"The value A is not of type INTEGER.\">",
        ),
        ("(= 1)", "T"),
        ("(= 1 1 2)", "NIL"),
        (
            "(=)",
            "#<PROGRAM-ERROR \"Wrong number of arguments for =.\">",
        ),
        ("(< 1 2 3)", "T"),
        ("(< -1 -2)", "NIL"),
        ("(> 3 2 1)", "T"),
        ("(> 3 3)", "NIL"),
        ("(<= 1 1 2)", "T"),
        ("(<= 2 1)", "NIL"),
        ("(>= 2 2 1)", "T"),
        ("(>= 1 2)", "NIL"),
        ("(/= 1 2)", "T"),
        ("(/= 1 1)", "NIL"),
        (
            "(/= 1 2 3)",
            "#<PROGRAM-ERROR \"Wrong number of arguments for /=.\">",
        ),
        ("(zerop 0)", "T"),
        ("(zerop -1)", "NIL"),
        ("(plusp 1)", "T"),
        ("(plusp 0)", "NIL"),
        ("(minusp -1)", "T"),
        ("(minusp 0)", "NIL"),
        ("(evenp 0)", "T"),
        ("(evenp -9223372036854775808)", "T"),
        ("(evenp 1)", "NIL"),
        ("(oddp 9223372036854775807)", "T"),
        ("(oddp 2)", "NIL"),
        (
            "(oddp \"1\")",
            "#<TYPE-ERROR \"The value \\\"1\\\" is not of type INTEGER.\">",
        ),
    ] {
        assert!(rt; gives(alloc, call, want)?, "{call}");
    }
    Ok(())
}

#[test]
fn predicates(rt: HostRuntime) -> Result<(), Fail> {
    let alloc = rt.alloc();
    for (call, want) in [
        ("(null nil)", "T"),
        ("(null (nil))", "NIL"),
        ("(not t)", "NIL"),
        ("(not nil)", "T"),
        ("(eq a a)", "T"),
        ("(eq a :a)", "NIL"),
        ("(eql 1 2)", "NIL"),
        ("(equal \"a\" \"A\")", "NIL"),
        ("(equal (1 (\"x\")) (1 (\"x\")))", "T"),
        (
            "(equal 1)",
            "#<PROGRAM-ERROR \"Wrong number of arguments for EQUAL.\">",
        ),
        ("(atom nil)", "T"),
        ("(atom (1))", "NIL"),
        ("(consp nil)", "NIL"),
        ("(consp (1))", "T"),
        ("(listp nil)", "T"),
        ("(listp 1)", "NIL"),
        ("(symbolp :a)", "T"),
        ("(symbolp \"a\")", "NIL"),
        ("(stringp \"\")", "T"),
        ("(stringp a)", "NIL"),
        ("(integerp -1)", "T"),
        ("(integerp (1))", "NIL"),
        ("(keywordp a)", "NIL"),
        ("(keywordp nil)", "NIL"),
        ("(identity (1))", "(1)"),
        (
            "(identity)",
            "#<PROGRAM-ERROR \"Wrong number of arguments for IDENTITY.\">",
        ),
        ("(type-of 1)", "INTEGER"),
        ("(type-of \"a\")", "STRING"),
        ("(type-of :a)", "KEYWORD"),
        ("(type-of a)", "SYMBOL"),
        ("(type-of (1))", "CONS"),
        ("(typep nil list)", "T"),
        ("(typep nil symbol)", "T"),
        ("(typep (1) null)", "NIL"),
        ("(typep 1 t)", "T"),
        (
            "(typep 1 nosuch)",
            "#<TYPE-ERROR \"The value NOSUCH is not of type TYPE.\">",
        ),
    ] {
        assert!(rt; gives(alloc, call, want)?, "{call}");
    }
    Ok(())
}

#[test]
fn parts_of_lists(rt: HostRuntime) -> Result<(), Fail> {
    let alloc = rt.alloc();
    for (call, want) in [
        ("(list)", "NIL"),
        ("(list 1 (a) \"b\")", "(1 (A) \"b\")"),
        ("(append)", "NIL"),
        ("(append nil (1))", "(1)"),
        (
            "(append (1) 2)",
            "#<TYPE-ERROR \"The value 2 is not of type LIST.\">",
        ),
        ("(cons (1) nil)", "((1))"),
        (
            "(cons 1 2)",
            "#<TYPE-ERROR \"The value 2 is not of type LIST.\">",
        ),
        ("(car ((1) 2))", "(1)"),
        (
            "(car)",
            "#<PROGRAM-ERROR \"Wrong number of arguments for CAR.\">",
        ),
        ("(cdr nil)", "NIL"),
        ("(cdr (1 2))", "(2)"),
        ("(first (1))", "1"),
        (
            "(first \"ab\")",
            "#<TYPE-ERROR \"The value \\\"ab\\\" is not of type LIST.\">",
        ),
        ("(rest (1))", "NIL"),
        ("(second (1 2))", "2"),
        ("(second (1))", "NIL"),
        ("(third (1 2 3))", "3"),
        ("(nth 0 (a b))", "A"),
        ("(nth 2 (a b))", "NIL"),
        (
            "(nth a (b))",
            "#<TYPE-ERROR \"The value A is not of type INTEGER.\">",
        ),
        ("(nthcdr 0 (a b))", "(A B)"),
        ("(nthcdr 1 (a b))", "(B)"),
        ("(nthcdr 9223372036854775807 (a))", "NIL"),
        (
            "(nthcdr -1 (a))",
            "#<TYPE-ERROR \"The value -1 is not of type INDEX.\">",
        ),
        ("(last nil)", "NIL"),
        ("(last (1))", "(1)"),
        ("(reverse nil)", "NIL"),
        ("(reverse (1 2 3))", "(3 2 1)"),
        (
            "(reverse \"ab\")",
            "#<TYPE-ERROR \"The value \\\"ab\\\" is not of type LIST.\">",
        ),
    ] {
        assert!(rt; gives(alloc, call, want)?, "{call}");
    }
    Ok(())
}

#[test]
fn sequences(rt: HostRuntime) -> Result<(), Fail> {
    let alloc = rt.alloc();
    for (call, want) in [
        ("(length nil)", "0"),
        ("(length (1 (2 3)))", "2"),
        ("(length \"\")", "0"),
        (
            "(length a)",
            "#<TYPE-ERROR \"The value A is not of type LIST.\">",
        ),
        ("(member 2 (1 2 3 2))", "(2 3 2)"),
        ("(member (a) (b (a)))", "((A))"),
        ("(member 1 nil)", "NIL"),
        (
            "(member 1 2)",
            "#<TYPE-ERROR \"The value 2 is not of type LIST.\">",
        ),
        ("(assoc a nil)", "NIL"),
        ("(assoc \"k\" ((\"k\" 1) (\"k\" 2)))", "(\"k\" 1)"),
        ("(assoc nil (nil (nil 1)))", "(NIL 1)"),
        ("(subseq (1 2 3) 0 2)", "(1 2)"),
        ("(subseq (1 2 3) 3)", "NIL"),
        ("(subseq \"abc\" 3 3)", "\"\""),
        (
            "(subseq \"abc\" 4)",
            "#<TYPE-ERROR \"The value 4 is not of type INDEX.\">",
        ),
        (
            "(subseq \"abc\" 0 4)",
            "#<TYPE-ERROR \"The value 4 is not of type INDEX.\">",
        ),
        (
            "(subseq 1 0)",
            "#<TYPE-ERROR \"The value 1 is not of type LIST.\">",
        ),
    ] {
        assert!(rt; gives(alloc, call, want)?, "{call}");
    }
    Ok(())
}

#[test]
fn texts_and_conditions(rt: HostRuntime) -> Result<(), Fail> {
    let alloc = rt.alloc();
    for (call, want) in [
        ("(string= \"ab\" \"ab\")", "T"),
        ("(string= \"ab\" \"aB\")", "NIL"),
        ("(string= nil \"NIL\")", "T"),
        (
            "(string= 1 \"1\")",
            "#<TYPE-ERROR \"The value 1 is not of type STRING.\">",
        ),
        ("(string-upcase abc)", "\"ABC\""),
        ("(string-upcase \"straße\")", "\"STRAßE\""),
        ("(string-downcase \"ÄBC\")", "\"Äbc\""),
        ("(string-downcase t)", "\"t\""),
        (
            "(string-downcase (a))",
            "#<TYPE-ERROR \"The value (A) is not of type STRING.\">",
        ),
        ("(princ-to-string \"é\")", "\"é\""),
        ("(princ-to-string nil)", "\"NIL\""),
        ("(prin1-to-string (:a \"b\"))", "\"(:A \\\"b\\\")\""),
        ("(prin1-to-string -1)", "\"-1\""),
        ("(symbol-name :a)", "\"A\""),
        ("(string \"ab\")", "\"ab\""),
        ("(string :a)", "\"A\""),
        ("(string nil)", "\"NIL\""),
        (
            "(make-condition division-by-zero)",
            "#<DIVISION-BY-ZERO \"Condition of type DIVISION-BY-ZERO.\">",
        ),
        (
            "(make-condition error :format-control 1 :format-arguments nil)",
            "#<TYPE-ERROR \"The value 1 is not of type STRING.\">",
        ),
        (
            "(make-condition error :format-arguments nil :format-control \"a\")",
            "#<PROGRAM-ERROR \"Wrong number of arguments for MAKE-CONDITION.\">",
        ),
    ] {
        assert!(rt; gives(alloc, call, want)?, "{call}");
    }
    Ok(())
}
