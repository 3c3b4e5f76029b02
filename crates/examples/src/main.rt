// The paper's cases, run by the box: for each a line with the number, place, type, value, units and the
// bytes printed. What it should write is what the second interpreter says.
#![tactic(auto)]

use grumpy::answers::Ran;
use language::{ALLOWANCE, TABLE, WORK};
use layout::floats;
use layout::values::Value;

// The edition that they are written in.
const EDITION: u32 = 1;

fn main(rt: HostRuntime) {
    proved(&rt);
    easily_wrong(&rt);
    scope_programs(&rt);
    decimal_points(&rt);
}

// The examples that the paper's theorem speaks of, and those beside them.
fn proved(rt: &impl Print) {
    show(rt, b"1+2", ALLOWANCE);
    show(rt, b"-2147483647-1", ALLOWANCE);
    show(rt, b"65535+1", ALLOWANCE);
    show(rt, b"2147483647+1", ALLOWANCE);
    show(rt, b"2147483648", ALLOWANCE);
    show(rt, b"-7/2", ALLOWANCE);
    show(rt, b"7/0", ALLOWANCE);
    show(rt, b"1<2<3", ALLOWANCE);
    show(rt, b"", ALLOWANCE);
    show(rt, b"let x=1 in x;2", ALLOWANCE);
    show(rt, b"/*/*/", ALLOWANCE);
    show(rt, b"/* /* */ */1", ALLOWANCE);
    show(rt, b"putchar(65)", ALLOWANCE);
    show(rt, b"putchar(256)", ALLOWANCE);
    show(rt, b"while true{tt}", 10);
    show(rt, b"def h():int ref{let x=ref 1 in x}!h()+1", ALLOWANCE);
    show(rt, b"{ref 1}", ALLOWANCE);
    show(rt, b"def f():int{1}def f():int{2}3", ALLOWANCE);
    show(rt, b"putchar(65); 1", ALLOWANCE);
}

// A sheet or more for each way that the paper names as easy to get wrong.
fn easily_wrong(rt: &impl Print) {
    show(rt, b"let r={ref 1}in let s=ref 2 in !r", ALLOWANCE);
    show(
        rt,
        b"let x=1 in let z = ref x in {z := 5}; !z + 1",
        ALLOWANCE,
    );
    show(rt, b"(-2147483647-1)/-1", ALLOWANCE);
    show(rt, b"-(-2147483647-1)", ALLOWANCE);
    show(rt, b"def f():int{x}let x=1 in f()", ALLOWANCE);
    show(
        rt,
        b"def f(x:int):int{let y=x in y}let x=7 in let y=9 in f(1)+x+y",
        ALLOWANCE,
    );
    show(rt, b"false&&1/0==0", ALLOWANCE);
    show(rt, b"true||1/0==0", ALLOWANCE);
    show(rt, b"def p():bool{putchar(66)==66}false&&p()", ALLOWANCE);
}

// The source document's programs on scope: a legal one, one with a name out of scope, one with a freed cell.
fn scope_programs(rt: &impl Print) {
    show(
        rt,
        b"def f(x:int,y:bool):int{let z=ref x in{let w=!z in z:=w+1};!z+1}f(3,false)",
        ALLOWANCE,
    );
    show(
        rt,
        b"def g(x:int,y:bool):int{let z=ref x in{let w=!z in z:=w+1};w+1}g(3,false)",
        ALLOWANCE,
    );
    show(rt, b"def h():int ref{let x=ref 1 in x}!h()+1", ALLOWANCE);
}

// Rates with a decimal point: a float's value is told by its bits, as a number.
fn decimal_points(rt: &impl Print) {
    show(rt, b"12.0", ALLOWANCE);
    show(rt, b"0.1+0.2", ALLOWANCE);
    show(rt, b"70000.0*3.25/1000.0", ALLOWANCE);
    show(rt, b"0.3<0.1+0.2", ALLOWANCE);
    show(rt, b"1.0/0.0", ALLOWANCE);
    show(rt, b"0.0/0.0", ALLOWANCE);
    show(rt, b"def f(x:float):float ref{ref(x/2.0)}f(2.5)", ALLOWANCE);
    show(rt, b"1+1.0", ALLOWANCE);
    show(rt, b"-1.0", ALLOWANCE);
    show(rt, b"1+123456789012345.6", ALLOWANCE);
}

// What cannot be written is missing in what was, and is told nowhere else.
fn write(rt: &impl Print, text: &[u8]) {
    let _ = rt.write_all(text);
}

fn decimal(rt: &impl Print, n: u64) {
    let _ = rt.print(n);
}

fn show(rt: &impl Print, sheet: &[u8], allowance: u64) {
    let mut table = [0u32; TABLE];
    let mut work = [0u32; WORK];
    let mut out = [0u8; 64];
    write(rt, sheet);
    write(rt, b"\n   ");
    field(rt, allowance);
    write(rt, b":");
    let answer = grumpy::run(EDITION, sheet, &mut table, &mut work, &mut out, allowance);
    report(rt, answer, &out);
    write(rt, b"\n");
}

fn report(rt: &impl Print, answer: Ran<usize>, out: &[u8]) {
    match answer {
        Ok(ended) => {
            match ended.ending.end {
                Ok(value) => {
                    three(rt, 0, 0, ended.type_number);
                    number(rt, value);
                }
                Err(stop) => {
                    three(
                        rt,
                        numbers::of_stop(stop.why),
                        stop.place,
                        ended.type_number,
                    );
                    field(rt, 0);
                }
            }
            field(rt, u64::from(ended.ending.units));
            bytes(rt, out, ended.ending.printed);
        }
        Err(r) => {
            three(rt, numbers::of_refusal(r.why), r.place, 0);
            field(rt, 0);
            field(rt, 0);
        }
    }
}

fn three(rt: &impl Print, number: u32, place: usize, type_number: u32) {
    field(rt, u64::from(number));
    field(rt, place as u64);
    field(rt, u64::from(type_number));
}

fn field(rt: &impl Print, n: u64) {
    write(rt, b" ");
    decimal(rt, n);
}

fn signed(rt: &impl Print, n: i64) {
    if n < 0 {
        write(rt, b" -");
        decimal(rt, n.unsigned_abs());
    } else {
        field(rt, n.unsigned_abs());
    }
}

// A value by its number; a float by its bits.
fn number(rt: &impl Print, value: Value) {
    match value {
        Value::Int(n) => signed(rt, i64::from(n)),
        Value::Float(x) => field(rt, floats::bits(x)),
        Value::Flag(b) => field(rt, u64::from(b)),
        Value::Nothing => field(rt, 0),
        Value::Cell(birth) => field(rt, u64::from(birth)),
    }
}

// The bytes printed, as numbers.
fn bytes(rt: &impl Print, out: &[u8], printed: usize) {
    for b in out.iter().take(printed) {
        field(rt, u64::from(*b));
    }
}
