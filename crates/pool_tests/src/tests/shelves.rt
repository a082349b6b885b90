use aml_pool::{Shelf, ShelfFault};
use std::panic::Expect;

/// Whether a value is filed.
fn takes(shelf: &mut Shelf<char>, number: u32, value: char) -> bool {
    shelf.put(number, value).is_ok()
}

/// Whether a shelf of four with a value at 3 refuses a second one there, and one at 4, and gives both back.
fn gives_back(shelf: &mut Shelf<char>) -> bool {
    matches!(shelf.put(3, 'b'), Err(ShelfFault::Double('b')))
        && matches!(shelf.put(4, 'c'), Err(ShelfFault::Stranger('c')))
}

#[test]
fn values_come_back_in_number_order(rt: HostRuntime) {
    let mut shelf = Shelf::new(rt.alloc(), 4).expect(&rt, "no shelf");
    assert!(rt; takes(&mut shelf, 3, 'a'));
    assert!(rt; gives_back(&mut shelf) && shelf.left() == 3);
    assert!(rt;
        takes(&mut shelf, 2, 'd') && takes(&mut shelf, 1, 'e') && takes(&mut shelf, 0, 'f')
    );
    assert!(rt; shelf.left() == 0);
    assert!(rt; shelf.finish().as_slice() == ['f', 'e', 'd', 'a'].as_slice());
}
