// Rows on their way to the finish, against lists that were put in order by hand.
use lp_values::{RowList, Value, ValueList};
use order_top::Orderer;
use std::alloc::{AllocError, Global};
use std::test::Fail;

const NULL: i64 = -1;

#[derive(Clone, Copy)]
struct Case {
    descending: bool,
    distinct: bool,
    ordered: bool,
    top: Option<u64>,
    want: &'static [(i64, i64)],
}

const ROWS: [(i64, i64); 7] = [(3, 0), (1, 1), (NULL, 2), (3, 3), (1, 1), (2, 5), (3, 0)];

const CASES: [Case; 12] = [
    Case {
        descending: false,
        distinct: false,
        ordered: true,
        top: None,
        want: &[(NULL, 2), (1, 1), (1, 1), (2, 5), (3, 0), (3, 3), (3, 0)],
    },
    Case {
        descending: true,
        distinct: false,
        ordered: true,
        top: None,
        want: &[(3, 0), (3, 3), (3, 0), (2, 5), (1, 1), (1, 1), (NULL, 2)],
    },
    Case {
        descending: false,
        distinct: true,
        ordered: true,
        top: None,
        want: &[(NULL, 2), (1, 1), (2, 5), (3, 0), (3, 3)],
    },
    Case {
        descending: true,
        distinct: true,
        ordered: true,
        top: None,
        want: &[(3, 0), (3, 3), (2, 5), (1, 1), (NULL, 2)],
    },
    Case {
        descending: false,
        distinct: false,
        ordered: true,
        top: Some(0),
        want: &[],
    },
    Case {
        descending: false,
        distinct: false,
        ordered: true,
        top: Some(2),
        want: &[(NULL, 2), (1, 1)],
    },
    Case {
        descending: true,
        distinct: false,
        ordered: true,
        top: Some(2),
        want: &[(3, 0), (3, 3)],
    },
    Case {
        descending: true,
        distinct: true,
        ordered: true,
        top: Some(3),
        want: &[(3, 0), (3, 3), (2, 5)],
    },
    Case {
        descending: false,
        distinct: true,
        ordered: true,
        top: Some(3),
        want: &[(NULL, 2), (1, 1), (2, 5)],
    },
    Case {
        descending: false,
        distinct: false,
        ordered: true,
        top: Some(100),
        want: &[(NULL, 2), (1, 1), (1, 1), (2, 5), (3, 0), (3, 3), (3, 0)],
    },
    Case {
        descending: false,
        distinct: true,
        ordered: false,
        top: Some(4),
        want: &[(3, 0), (1, 1), (NULL, 2), (3, 3)],
    },
    Case {
        descending: true,
        distinct: false,
        ordered: false,
        top: None,
        want: &ROWS,
    },
];

fn value(number: i64) -> Value {
    if number == NULL {
        Value::Null
    } else {
        Value::Int(number)
    }
}

fn row(alloc: Global, numbers: (i64, i64)) -> Result<ValueList, AllocError> {
    let mut row = ValueList::new(alloc);
    row.push(value(numbers.0))?;
    row.push(value(numbers.1))?;
    Ok(row)
}

fn finish(alloc: Global, case: &Case) -> Result<RowList, AllocError> {
    let mut columns = Vec::new(alloc);
    if case.ordered {
        columns.push(0)?;
    }
    let mut orderer = Orderer::new(alloc, columns, case.descending, case.distinct, case.top);
    for numbers in ROWS {
        orderer.put(row(alloc, numbers)?)?;
    }
    orderer.into_rows()
}

#[test]
fn rows_come_in_order(rt: HostRuntime) -> Result<(), Fail> {
    for case in CASES {
        let rows = finish(rt.alloc(), &case)?;
        assert_eq!(rt; rows.len(), case.want.len());
        for (got, numbers) in rows.as_slice().iter().zip(case.want.iter()) {
            let want = row(rt.alloc(), *numbers)?;
            assert!(rt; *got == want);
        }
    }
    Ok(())
}
