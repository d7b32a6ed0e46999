//! Documents of whole histories.

use crate::documents::comes_back;

// `examples/journal.json`
const JOURNAL: &str = concat!(
    r#"{"book":["agents ann, bob","kinds Oil, USD"],"format":"poets 1","history":[{"clerk":2,"command":"reg"#,
    r#"ister c = transmit(a, b, r, t | kind(r) = Oil and amount(r) = 7). Success + Success","reply":{"id":1"#,
    r#","kind":"registered"}},{"clerk":1,"command":"transmit c ann bob 7 Oil @2006-05-03","reply":{"count":"#,
    r#"1,"kind":"recorded","may_end":true}},{"clerk":2,"command":"transmit c ann bob 7 Oil @2006-05-03","re"#,
    r#"ply":{"kind":"unmatched"}},{"clerk":1,"command":"end c","reply":{"kind":"ended now"}}]}"#,
);

// `examples/hire.json`
const HIRE: &str = concat!(
    r#"{"book":["agents shop, rider","kinds Bicycle, EUR","template hire(fee: Int, due: Day) = transmit(a, "#,
    r#"b, r, t | a = shop and b = rider and r = [1 Bicycle]). (transmit(a, b, r, t | a = rider and b = shop"#,
    r#" and r = [1 Bicycle]). Success || transmit(a, b, r, t | a = rider and b = shop and r = res(fee, EUR)"#,
    r#" and t <= due). Success)"],"format":"poets 1","history":[{"clerk":1,"command":"register ride = hire("#,
    r#"20, @2006-05-10)","reply":{"id":1,"kind":"registered"}},{"clerk":1,"command":"transmit ride shop rid"#,
    r#"er 1 Bicycle @2006-05-03","reply":{"count":1,"kind":"recorded","may_end":false}},{"clerk":1,"command"#,
    r#"":"show ride","reply":{"count":1,"ended":false,"kind":"shown","may_end":false,"residual":"transmit(a"#,
    r#", b, r, t | a = rider and b = shop and r = [1 Bicycle]). Success || transmit(a, b, r, t | a = rider "#,
    r#"and b = shop and r = res(20, EUR) and t <= @2006-05-10). Success"}},{"clerk":1,"command":"transmit r"#,
    r#"ide rider shop 1 Bicycle @2006-05-05","reply":{"count":2,"kind":"recorded","may_end":false}},{"clerk"#,
    r#"":1,"command":"show ride","reply":{"count":2,"ended":false,"kind":"shown","may_end":false,"residual""#,
    r#":"transmit(a, b, r, t | a = rider and b = shop and r = res(20, EUR) and t <= @2006-05-10). Success"}"#,
    r#"},{"clerk":1,"command":"end ride","reply":{"kind":"not performed"}},{"clerk":1,"command":"transmit r"#,
    r#"ide rider shop 20 EUR @2006-05-10","reply":{"count":3,"kind":"recorded","may_end":true}},{"clerk":1,"#,
    r#""command":"end ride","reply":{"kind":"ended now"}},{"clerk":1,"command":"transmit ride rider shop 20"#,
    r#" EUR @2006-05-10","reply":{"kind":"ended"}}]}"#,
);

// `examples/rows.json`
const ROWS: &str = concat!(
    r#"{"book":["agents ann, bob","kinds Oil, USD","template any() = Success + transmit(a, b, r, t | true)."#,
    r#" any()","report received(): Int = fold sum = 0 with (s, v, r, t) in sum + amount(r) by v","report qu"#,
    r#"otients(): Int = fold sum = 0 with (s, v, r, t) in sum + amount(r) by 12 / amount(r)","report shared"#,
    r#"(parts: Int): Int = fold sum = 0 with (s, v, r, t) in sum + amount(r) / parts"],"format":"poets 1",""#,
    r#"history":[{"clerk":1,"command":"register c = any()","reply":{"id":1,"kind":"registered"}},{"clerk":1"#,
    r#","command":"register d = any()","reply":{"id":2,"kind":"registered"}},{"clerk":1,"command":"transmit"#,
    r#" c bob ann 0 USD @2006-05-03","reply":{"count":1,"kind":"recorded","may_end":true}},{"clerk":1,"comm"#,
    r#"and":"transmit c ann bob 7 Oil @2006-05-03","reply":{"count":2,"kind":"recorded","may_end":true}},{""#,
    r#"clerk":1,"command":"transmit c ann bob 5 Oil @2006-05-04","reply":{"count":3,"kind":"recorded","may_"#,
    r#"end":true}},{"clerk":1,"command":"tally received()","reply":{"answer":{"rows":[["ann","0"],["bob","1"#,
    r#"2"]]},"kind":"answered"}},{"clerk":1,"command":"tally quotients()","reply":{"answer":{"rows":[["1",""#,
    r#"7"],["2","5"],[null,"0"]]},"kind":"answered"}},{"clerk":1,"command":"portfolio received() over c, d""#,
    r#","reply":{"kind":"portfolio","rows":[["c",{"rows":[["ann","0"],["bob","12"]]}],["d",{"rows":[]}]]}},"#,
    r#"{"clerk":1,"command":"portfolio shared(2) over c, d","reply":{"kind":"portfolio","rows":[["c",{"valu"#,
    r#"e":"5"}],["d",{"value":"0"}]],"total":"5"}},{"clerk":1,"command":"portfolio shared(0) over c, d","re"#,
    r#"ply":{"kind":"portfolio","rows":[["c",{"value":null}],["d",{"value":"0"}]],"total":null}}]}"#,
);

// The journal of `a_template_with_each_type_of_parameter` in `poets_test_explanations`.
const TYPES: &str = concat!(
    r#"{"book":["agents ann, bob","kinds Oil, USD","template six(n: Int, b: Bool, a: Agent, k: Kind, r: Res"#,
    r#"ource, d: Day) = Success + transmit(x, y, s, t | b and x = a and amount(s) = n and kind(s) = k and s"#,
    r#" = r and t = d). six(n - 1, b, y, k, [4 Oil], d + 1)"],"format":"poets 1","history":[{"clerk":1,"com"#,
    r#"mand":"register c = six(5, true, ann, Oil, [5 Oil], @2006-05-03)","reply":{"id":1,"kind":"registered"#,
    r#""}},{"clerk":1,"command":"transmit c ann bob 5 Oil @2006-05-03","reply":{"count":1,"kind":"recorded""#,
    r#","may_end":true}},{"clerk":1,"command":"show c","reply":{"count":1,"ended":false,"kind":"shown","may"#,
    r#"_end":true,"residual":"six(4, true, bob, Oil, [4 Oil], @2006-05-04)"}}]}"#,
);

#[test]
fn the_documents_of_the_examples_come_back(rt: HostRuntime) {
    let alloc = rt.alloc();
    assert!(rt; comes_back(alloc, JOURNAL));
    assert!(rt; comes_back(alloc, HIRE));
    assert!(rt; comes_back(alloc, ROWS));
}

#[test]
fn a_document_with_parameters_of_each_type_comes_back(rt: HostRuntime) {
    assert!(rt; comes_back(rt.alloc(), TYPES));
}
