//! Additional fields of V3 documents.
use crate::checks::must_eq;
use serde_json::Value;
use std::alloc::Global;
use std::process::Abort;
use zarrs_metadata::AdditionalFieldV3;

/// The field has this value, without the member `must_understand` if that is false.
fn must_hold(rt: &impl Abort, alloc: Global, field: AdditionalFieldV3, value: &str) {
    let held = field.as_value().to_string(alloc);
    drop(field);
    must_eq(rt, held.expect(rt, "no refusal").as_str(), value);
}

fn field_of(rt: &impl Abort, alloc: Global, text: &str) -> AdditionalFieldV3 {
    AdditionalFieldV3::from_value(Value::from_str(alloc, text).expect(rt, "no refusal"))
}

#[test]
fn values_of_additional_fields(rt: HostRuntime) {
    const ROWS: &[(&str, &str)] = &[
        ("{\"a\":1,\"must_understand\":false}", "{\"a\":1}"),
        ("{\"must_understand\":false}", "{}"),
        ("{\"must_understand\":true}", "{\"must_understand\":true}"),
        ("{\"must_understand\":0}", "{\"must_understand\":0}"),
        ("false", "false"),
    ];
    for (text, value) in ROWS {
        must_hold(&rt, rt.alloc(), field_of(&rt, rt.alloc(), text), value);
    }
}
